// Keys and targets with a `*`: examples of Node's documentation of package entry points, and the cases beside them.
use star_texts::{around_only_star, around_star, has_star, replaced, rest_between};
use std::alloc::{AllocError, Global};
use std::test::Fail;

// A key, what is asked, a target, and the file that they give, or none where the key doesn't fit.
// The first three rows are Node's. A rest may be empty here: whether that counts is for the caller to say.
fn rows() -> &'static str {
    "\
./features/*.js ./features/x.js ./src/features/*.js ./src/features/x.js\n\
./features/*.js ./features/y/y.js ./src/features/*.js ./src/features/y/y.js\n\
#internal/*.js #internal/z.js ./src/internal/*.js ./src/internal/z.js\n\
./features/*.js ./features/x.mjs ./src/features/*.js none\n\
./features/*.js ./features/.js ./src/features/*.js ./src/features/.js\n\
./a*a ./a ./b/*.js none\n\
./dir/* ./dir/a/b ./out/*/*.js ./out/a/b/a/b.js\n\
./two/*/* ./two/a/b ./out/*.js none"
}

// The file that a key and a target give for what is asked.
fn given(
    alloc: Global,
    key: &str,
    asked: &str,
    target: &str,
) -> Result<Option<String>, AllocError> {
    let Some((before, behind)) = around_only_star(key) else {
        return Ok(None);
    };
    match rest_between(asked, before, behind) {
        Some(rest) => Ok(Some(replaced(alloc, target, rest)?)),
        None => Ok(None),
    }
}

#[test]
fn keys_give_files(rt: HostRuntime) -> Result<(), Fail> {
    for row in rows().lines() {
        let (key, asked) = row.split_once(' ').ok_or("no key")?;
        let (asked, target) = asked.split_once(' ').ok_or("nothing asked")?;
        let (target, file) = target.split_once(' ').ok_or("no target")?;
        let found = given(rt.alloc(), key, asked, target)?;
        assert_eq!(rt; found.as_deref().unwrap_or("none"), file);
    }
    Ok(())
}

#[test]
fn the_first_star_parts_a_text(rt: HostRuntime) -> Result<(), Fail> {
    assert!(rt; has_star("./*/*.js"));
    assert!(rt; !has_star("./a.js"));
    assert_eq!(rt; around_star("./*/*.js"), Some(("./", "/*.js")));
    assert_eq!(rt; around_star("./a.js"), None);
    assert_eq!(rt; around_only_star("./*/*.js"), None);
    Ok(())
}
