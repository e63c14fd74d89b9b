// Statements in random order, with imports among them.
use es_imports::{ImportKind, scan_imports};
use std::test::Fail;

// Statements without imports, a line each.
fn others() -> &'static str {
    r###"a = b / c / 'import("d")'
if (a) /import('b')/.test("'")
a = `import('b') ${ `${ "}" }` + {a: '}'}.a } '`
/* import('a') */ // import('b')
a.require('b') / /[/"']/g
x++ / "import 'a'" / 2
a = {b: 1.5e-3, c: [/\/'/, .5]} / 'd'
for (const a of /'/.b) { a?.import('b') } /"/.test(c)
class A { #import = `'`; static b() { return /`/ } }
label: while (a --> 0) with (b) /'/.test(c)"###
}

// A number below the bound, and the next state.
fn drawn(state: u64, bound: usize) -> (usize, u64) {
    let next = state
        .wrapping_mul(6_364_136_223_846_793_005)
        .wrapping_add(1_442_695_040_888_963_407);
    let number = ((next >> 33) % (bound as u64).max(1)) as usize;
    (number, next)
}

#[test]
fn imports_are_found_among_statements(rt: HostRuntime) -> Result<(), Fail> {
    let alloc = rt.alloc();
    let statements: Vec<&str> = others().split('\n').collect(alloc)?;
    let mut state = 1;
    for _ in 0..60 {
        let mut text = String::new(alloc);
        let mut places = Vec::new(alloc);
        for _ in 0..12 {
            let (number, next) = drawn(state, statements.len() + 4);
            state = next;
            match statements.get(number) {
                Some(statement) => text.push_str(statement)?,
                None => {
                    places.push(text.len())?;
                    text.push_str("import('e')")?;
                }
            }
            text.push_str("\n;")?;
        }
        let imports = scan_imports(alloc, text.as_str())?;
        assert_eq!(rt; imports.as_slice().len(), places.len(), "{text}");
        for (import, place) in imports.as_slice().iter().zip(places.iter()) {
            assert_eq!(rt; import.kind, ImportKind::Dynamic);
            assert_eq!(rt; Some(import.place), place.checked_add(7), "{text}");
        }
    }
    Ok(())
}
