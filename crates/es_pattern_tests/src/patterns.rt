// Answers of V8's `RegExp` without flags, and faults by the grammar.
use es_pattern::{Pattern, PatternError};
use std::alloc::{AllocError, Global};
use std::test::Fail;

// Patterns, texts and whether the one is found in the other, by V8: a line each, apart by tabs,
// `⏎` being a line end.
fn by_v8() -> &'static str {
    "\
|((?![^cc\\b-]|[^-a-c]{1,2}/_{0})){2}?\ta_a1\ttrue\n\
\\u0062?a([-]{1,3}\\w{2,}[^]$){1,2}||\taa_b\ttrue\n\
/??-{0,}\\B(?!($)*[-]+?)\t/_-/1a-\ttrue\n\
(?:1 {1,3}?[^-./]{0}?^)(?!)1\\b\t.b.\tfalse\n\
()*?/1{2}?|c{2,}(\\ba*?.{1}.{0,}){1,2}a\t___.\tfalse\n\
^.{0,}?\tac\ttrue\n\
(\\S^$)??[-a\\w\\b]{1}\t.   1\ttrue\n\
|^|[//_][^--]{0,}?()\t._bb._⏎\ttrue\n ?\t\ttrue\n\
(){2,} \t_1/ \ttrue\n\
$|\\.$\\*{2,}(?=)\t..\ttrue\n\
.{0}(?!_{2,}.{1})a{2,}a?\t⏎\tfalse\n\
/{1,3}$_{1,2}\t\tfalse\n\
(/+?(?=1)){1}(_{2,}[/\\b]+$)??^.{1}?\t1\tfalse\n\
|b?|\t c\ttrue\n\
\\B\t\ttrue\n\
$[\\wbc-]$|\t\ttrue\n\
(?=\\B^) |\t_a_-\ttrue\n\
\\W_.{1}?\t a -\tfalse\n\
-{0}?/[\\w]{2,}?^\tabb_a⏎ \tfalse\n ?(-$()\\*{0}?){2,}1?\tccb/.-\tfalse\n\
1?[--]\tcab/bb\tfalse\n {0}^c{0}\t \ttrue\n\
(?=-{0,}\\b^[^b\\d]?)\\bb{2}?[-\\b\\d]*\t⏎1/\tfalse\n\
[]+?[^/-]+\t- 1./\tfalse\n\
$c\t-ac\tfalse\n\
(?=)$(?!)\\t{0}?\t1 \tfalse\n\
| a{0}?/{2}\\x61{0,}|c{1}.??\taac\ttrue\n\
(?:)[c\\d\\b]{1,2}(?:[^-_a-c-]?)[^0-9aa]+\tc-⏎/\ttrue\n\
\\s{1}\\B||\t.-1ba/1\ttrue\n\
$.$\tcab../\tfalse\n\
[^-\\b-]{1}?\tb1b⏎.\ttrue\n\
\\D{2}?\t.11bb.-\ttrue\n\
$1{2}\\B\t a/-⏎.⏎\tfalse\n\
[\\d]{1,3}\tab/b-a\tfalse\n\
.-??(?:| {2}(?!_{2} {0,}?|$|)){1,2}\t/-/ \ttrue\n\
|1[\\wb-]| ?.{1,3}\\u0062+?.{2,}?\t\ttrue\n\
\\B1{2}.\t. .b\tfalse\n\
[\\ba-c]?1?(?!(?!)[-.])|\t/1-\ttrue\n\
-{2,}-?a+?/{1,2}\ta_b\tfalse\n\
[^a0-9]{1}\t-_a⏎ --\ttrue\n\
1(?!-{2}^)\t⏎b. _\tfalse\n\
a*?|(?:b$.){1}?\t⏎\ttrue\n\
[-\\d/\\d]*|(?!$)\tca.b-/a\ttrue\n\
.+? -{0,}?c?\tb1ba\tfalse\n\
.??[-/]\tc\tfalse\n\
$$\tb1aaa\ttrue\n\
([^\\b-]{1,3}?){0}|b(?=|)b+\t_/\ttrue\n\
b{2,}|-\t-b1\ttrue\n\
.\\//*$\t_.\tfalse\n\
$b+?\t_\tfalse\n\
/{1,3}\\bb{1,2}\t.\tfalse\n\
b[.\\w]+$$\t..⏎\tfalse\n\
c*-?\t_bc1.b\ttrue\n\
(?=)-a{2,}\tc_1cbb\tfalse\n\
|^\\B(?!)(^$(?:^1?)*){1,2}?\tc._b⏎c1\ttrue\n\
(?!^)(?:((a{1,2}?){2,} {1} +|)+1+){2,}\\b\tba1abb\tfalse\n\
^a{2,}?[\\w-]?|1{0}|\t1bb--1\ttrue\n\
^/{0,}\tccaa-\ttrue\n\
\\t{0,}?\tb⏎\ttrue\n\
\\w??([^-\\w\\b]?|-+?$|.?[^\\b](?:))?.\t\tfalse\n\
[0-9b]{2} {2}\t b_.-_\tfalse\n\
$[--]{1}\tba/ab.\tfalse\n\
1{0} {0,}\t-b1/ba\ttrue\n\
|[_]{1}?|^\t -cb-1\ttrue\n\
$a?[^--]?\t -\ttrue\n\
|(?:){1,2} {2,}\\B|1+?a*\\w{1}\\B\t.\ttrue\n\
$[^\\d\\b\\w]c{0,}\t \tfalse\n\
_{1}$\t cb//.a\tfalse\n\
\\d+1{1,3}\t1a.bcc⏎\tfalse\n\
|(?:aa{2,}[^-_\\b-]*?).{1}\\b[^c_\\b-]{0,}\tab\ttrue\n\
_{0,}?-{0}\tb_-a\ttrue\n\
1{1,2}\t cb.b\tfalse\n\
[^--]1 *^\ta\tfalse\n\
^b|\t1b_-1\ttrue\n\
.{1}c{1}b{2}\t_b.b\tfalse\n\
c|\t\ttrue\n\
[^-]^_{2,}?|_{0,}? \t\tfalse\n\
(?:){2,}?b{2,}|\\s{2,}\\.{2}?[^-.-]{1,3}\t\tfalse\n\
|\\b_\\d{0}a??\t⏎-\ttrue\n\
(?!\\.{0}?) {1}\t1-\tfalse\n {2}^.{2,}?\t/c⏎/b\tfalse\n\
\\.{1,2}?\t-\tfalse\n\
\\B(?:$ {0}?){1,3}\t⏎_ ⏎\ttrue\n\
[^-.0-9\\w]\t⏎\ttrue\n\
$b{0}$b{0,}\tba⏎a/\ttrue\n\
1{1,3}^\t\tfalse\n\
\\.|_$\\.{1}|\\d{2}\t-b_cb\tfalse\n\
|a?-{1,2}b{1,2}?^|-{2}?/*\tb--_bb.\ttrue\n\
1{2,}?\t\tfalse\n\
\\.{2,}?c{2}\t-b./-_b\tfalse\n\
[^]{1}-|\t⏎-_b./\ttrue\n\
$\\b/{1,3}_\t\tfalse\n\
\\D*?[^-c_a-c]{1,3}?|b{1,3}|/{2}\tb\ttrue\n\
.{0}.{1,2}?|(?:c{1}){0,}/*|\t⏎b  /\ttrue\n\
/{1}?\\D{1,2}?1(?:b{1}\\D{0,}[^c]$){2}?|$\t bbbaa\ttrue\n\
-{1,3}-{1,3}\t1\tfalse\n\
.|^\\d{2} *?\t.ca/-._\ttrue\n\
\\b.?|\ta11\ttrue\n\
\\x611_{1,2}[/0-9-]\t\tfalse\n\
1*/{0,}-\tc ⏎-\ttrue\n\
(?=^|\\bc?).*\\t\tb\tfalse\n\
[\\d-]{2}?.\tc.a _b\tfalse\n\
-*a{1}^^\tc/_aa\tfalse\n\
(?:^$)?a{1}((c){2,} {1,2}^){0,}\tabbcb.\ttrue\n\
1(\\*{2}b+?\\bb+|c??|(?!1.{1,2})){2,}?\tab⏎\tfalse\n\
/$_{2,}\t\tfalse\n\
(?:c+[cc]{1}a?c|){1,2}1{1}? {2,}[-\\d.]??\taab\tfalse\n\
$^|\t.\ttrue\n\
\\b\tb/-1/b\ttrue\n\
[^.]\\/\\S{2} \t-.aa\tfalse\n\
a??|cc*?_{0}\ta\ttrue\n\
[_0-9a-c]{2}\\x61+?\t⏎\tfalse\n\
_{2,}-\\B\taaca a\tfalse\n\
\\B[-0-90-9\\b-]|^a{1}\\S{0}\tc_\tfalse\n\
[^\\d-]{2}\t.⏎1bb.b\ttrue\n\
\\*{1,3}?^c{2}\tab.a\tfalse\n\
^^|^\tba.\ttrue\n\
.?\t._a b\ttrue\n\
ab\t \tfalse\n\
| +b-{2}?|/{1}?(?=^)\ta⏎a\ttrue\n\
.?/{2,}^\t_\tfalse\n\
[]+($(?:.{0,}1b{1}( {2,})+|\\w{2})+|)?\t\tfalse\n\
.*\tba.\ttrue\n\
^/+?.?[^-]?\t 1bc-\tfalse\n\
(1?){2,}[0-9]{0}?/{2,}\tb-b\tfalse\n\
\\u0062(?=$1|(a{1,2})+1{0}?\\x61|)|\tb.\ttrue\n\
-{1,2}1+_{1,3}?\t1a\tfalse\n\
_{0,}\\t\t\tfalse\n\
$a{2,}\\b^|\tc-1b.a.\ttrue\n\
[^]\\B\t _a11b\ttrue\n\
(?:[c\\d]+^^)\t/-⏎ba\tfalse\n\
(?![aa-c](?!b+[\\b])\\.{0}?)\t⏎\ttrue\n\
\\u0062+.\\w{2,}?[^]?\t\tfalse\n\
|/\t.bb⏎\ttrue\n\
[^-\\b-]{1,3}cb{1,2}?|b{0}\tac1a\ttrue\n\
[\\w]{0}.?($^)^| ?^^1{1,3}|-??/\t-/bbb_ \ttrue\n\
.1{1,2}\tc- \tfalse\n\
|[^-b-]{2}a??$_?\t-_a\ttrue\n\
[^--]*a\t -cb\tfalse\n\
\\D(?:/{1,3}?$)\t\tfalse\n\
-a\ta\tfalse\n\
$^||(?:\\t{0}?){1}?a.{0,}\t\ttrue\n\
.[-a-ca\\d].{0,}\t\tfalse\n\
^_{2,}$\t ⏎c\tfalse\n\
.{2,}?|(?:){2,}[\\wa0-9-]{2,}|\\/\t⏎ /.b-\ttrue\n\
[-]? *\t\ttrue\n {2,}\ta/b\tfalse\n\
[--]{0}?\\b$\t b\ttrue\n\
(|1{1,2}\\x61{2,}?)_{2,}1.{0,}\t⏎a⏎\tfalse\n\
(?:((?=-{0,}?)[\\b_a-c-]{0}?a?)\\b/){2}^^\tba⏎b\tfalse\n\
^/??-[^\\d/]\taacb\tfalse\n\
.+1\t. 1⏎-\ttrue\n\
^\t_.⏎b\ttrue\n\
\\B$b{1}|a{2,}?\\u0062_+\\B|\tb.\ttrue\n\
$|a+(?:){0,}?$|-{2}\t\ttrue\n\
$^.{0}|^\\W\tcb./\tfalse\n\
\\B_{2,}-{2}(?!)\ta\tfalse\n\
(?=)[^\\d0-9]{1}?_{1,2}\\W{1,3}\t.⏎b⏎/\tfalse\n\
[]+ {1,3}$a+|c\ta/⏎⏎\tfalse\n\
.{1}?\t/acaa/ \ttrue\n\
\\b$.(?=(?:1{2}){1,3}(?=\\D{1,2}))\ta1--\tfalse\n\
/{1,2}\t⏎⏎_⏎1a\tfalse\n\
^$$\t\ttrue\n\
-+/{2,}$(?:[-]-??|^1{2}?|)\t-_\tfalse\n\
(?:){2,}^-+?\t-bcca\ttrue\n\
|\tb_c\ttrue\n\
(?=$\\D*[0-9-])c{0}.?\\s\t ⏎\tfalse\n\
a{2,}?^|(?![-/\\d.-]{1}?).{1}?\t\tfalse\n\
(?:^){0}? +[/0-9]{2,}(?=)\t_b..b1\tfalse\n\
1{0}\\D{2}\\b(?!)\t_\tfalse\n\
.{1,2}.{1}[^._c]{1,3}?-{2,}\tba⏎ab\tfalse\n\
(\\u0062-{0})(?!)|\t./.\ttrue\n\
[--]{2,}a{0,}((?=/\\w$b{1,3})){0,}?\tba/a/\tfalse\n\
\t/1b⏎/\ttrue\n\
.{1}^()\\s{2}\t1bc/⏎b\tfalse\n\
$c{1,3}[-]$||^$\t/-\ttrue\n\
| \\u0062{1,3}?[-a-c\\d]{0}?.+\ta_\ttrue\n\
\\x61{1}\tb_abba\ttrue\n\
[^-\\w]{1,2}?\t\tfalse\n\
\\Bb.+/{2}?\t_-a⏎c⏎\tfalse\n\
c{0,}$|\\b(?:){1}?^$\t_ /_.\ttrue\n\
1*\\.{2}?^\tc\tfalse\n\
[-\\d]{1}\t.ab_1a_\ttrue\n\
.c*(?!)[^]{0,}?\t - _/\tfalse\n\
1{1}[^0-9-]{0,}/{1,3}?\t1⏎a⏎_\tfalse\n\
\\bc\t_aa\tfalse\n\
-*^\t-_1a1b\ttrue\n\
[^-b]{2}(?!)^|_{0}^\t⏎c-aa.-\ttrue\n\
(){0}?\\w?\tb/aa\ttrue\n\
$^\ta/\tfalse\n\
[^-aa]{0,}?()\t\ttrue\n\
(?=(?:_?){1,2}?)\tb-ab\ttrue\n\
c{1}a?$\\B|$(?!-*)|$\t_.⏎\ttrue\n\
.+?^[^-]|1a{1,3}(_+?)\tb \tfalse\n\
^[-/]?[^a]+\tab⏎_\tfalse\n\
.{2}?[-]{1,2}|\t //b  \ttrue\n\
(?!.*)|c{2,}(?:_{1}?)-{1,2}?\t/abac .\tfalse\n\
-^^$\t⏎\tfalse\n\
/-{1,3}\t⏎b.a\tfalse\n\
(^){1,3}?\\w\t1._\ttrue\n\
\\/*?[b]|^a[^-0-9a]{1}$|(\\S{1,2}\\bb?$).*\tb_\ttrue\n\
[^\\d0-9]+1{2}\t/.1⏎/-\tfalse\n\
(a(|1?)* ( {1,2}-?){2,}|(?:){0}?^.){1}^$\ta-a\tfalse\n\
|\\/1{0}(?:)+\t\ttrue\n\
b{1,3}$ba{1}|[-]{0,}c{1}[-\\dac-]\t/_a\tfalse\n\
\\d+/$\\u0062{2}?|[^\\b]{2,}|\t⏎⏎\ttrue\n\
^ {1,2}?\tb\tfalse\n\
c??( {2,}?(1\\t{1}?a?_{2}?){1,3}?(?!)){1}\tbc⏎.\tfalse\n\
[^b-]*\t-_bc.\ttrue\n\
|^\tc--a_\ttrue\n\
|(?![-a_c]*?)[^/]??\tba\ttrue\n\
^1b?|(?:){0}(1{0,}^)*(c){2}(?:a*(?=|)$)\tb/.\tfalse\n\
\\S\t_-a.1\ttrue\n\
^$/{0}^|[^--]?[^-]?_?\t__\ttrue\n\
$\\b$|b{0,} {0}[^/]{0}|c\t⏎a-\ttrue\n\
|/??b\\b\\B\tb-\ttrue\n\
\\/{2}1+_{2}\t.-a a⏎\tfalse\n\
(?=)|(?=a)(^$c{2,}|_.)+\tc-⏎1bb\ttrue\n\
(?:)\\s{2,}?|\ta\ttrue\n\
(|(?:)*^|b+?c?){2,}?(?!b+(?=^.)^)\t\ttrue\n\
^ |\tbbaab\ttrue\n\
\\b[^-0-9]{0}|b+.{1}?\t- -a\ttrue\n\
/??\tb_ \ttrue\n\
c{1,2}?$\t.c-⏎ -\tfalse\n\
||1{0,}? ?\t\ttrue\n\
.|\t\ttrue\n\
\\*{2}a{1,3}|b{1,2}\ta.\tfalse\n\
^^$|$.{1}1+|c{2}?$\t -1bb\tfalse\n\
$\ta/\ttrue\n\
\\W{2,} {1}?\t-\tfalse\n\
(?=.?)$|\\t{1,3}.{0,}?.{2}[\\b/-]{0}\t\ttrue\n\
/{2,} {1,3}[-\\d-]{0,}\t\tfalse\n\
(?:a|\\x61?^)??[\\b/]{1,2}||^\ta\ttrue\n\
(( ){0}$ {0,}?-?){0}\ta _-/\ttrue\n\
\\B_{2}?\taac.ba\tfalse\n\
()||c{2,}?\t1b//\ttrue\n\
(?:b{1,2}$c{2}?)\tc.a⏎⏎\tfalse\n\
c{2}?a{2}b{1,2}a{1,2}?\t\tfalse\n\
((?!\\t{1,3})(?!.-|)1??){1,3}?\tb._.\tfalse\n\
^[a-c--e]+$\t-./Zabe\ttrue\n\
[a-c--e]\t+,f\tfalse\n\
^[a-c---e]+$\t-ace\ttrue\n\
[a-c---e]\t,.d\tfalse\n\
^[--a--b]+$\t-Zab\ttrue\n\
[--a--b]\t,c\tfalse\n\
[^--a]\t-Za\tfalse\n\
^[^--a]+$\t,b\ttrue\n\
^[a-c-]+$\t-abc\ttrue\n\
[a-c-]\t,.d\tfalse\n\
^[\\d-]+$\t-09\ttrue\n\
[\\d-]\t,./:\tfalse\n\
^[\\d---]+$\t-09\ttrue\n\
[\\d---]\t,./:\tfalse\n\
^[\\d---0a]+$\t-09a\ttrue\n\
^[a-c--\\x61]+$\t-Zac\ttrue\n\
[a-c--\\x61]\t,d\tfalse\n\
^[+----.]+$\t+,-.\ttrue\n"
}

// The example of the crate's head.
#[test]
fn the_example(rt: HostRuntime) -> Result<(), Fail> {
    let alloc = rt.alloc();
    let pattern = Pattern::parse(alloc, "^src/.*\\.ts$")?;
    assert!(rt; pattern.is_found(alloc, "src/index.ts")?);
    assert!(rt; !pattern.is_found(alloc, "lib/index.ts")?);

    let fault = Pattern::parse(alloc, "a**").err();
    assert_eq!(rt; fault, Some(PatternError::Syntax { place: 2 }));
    Ok(())
}

#[test]
fn answers_as_v8_does(rt: HostRuntime) -> Result<(), Fail> {
    let mut rows = 0u32;
    for line in by_v8().lines() {
        let mut fields = line.split('\t');
        let pattern = fields.next().unwrap_or("");
        let mut text = String::new(rt.alloc());
        for c in fields.next().unwrap_or("").chars() {
            text.push(if c == '⏎' { '\n' } else { c })?;
        }
        let found = fields.next() == Some("true");
        let parsed = Pattern::parse(rt.alloc(), pattern)?;
        assert_eq!(rt;
            parsed.is_found(rt.alloc(), text.as_str())?,
            found,
            "{line}"
        );
        rows = rows.saturating_add(1);
    }
    assert_eq!(rt; rows, 258);
    Ok(())
}

// Texts that are refused: the kind of the refusal and its byte.
fn faults() -> &'static [(&'static str, &'static str, usize)] {
    &[
        ("(", "syntax", 1),
        ("\\1", "unsupported", 0),
        ("a{1001}", "count", 1),
        ("a**", "syntax", 2),
        ("^*", "syntax", 1),
        ("*", "syntax", 0),
        ("(?=a)*", "syntax", 5),
        ("(?=a){2}", "syntax", 7),
        ("a{2}{3}", "syntax", 6),
        ("{5}", "syntax", 2),
        ("^{5}", "syntax", 3),
        ("^{1001}", "count", 1),
        ("a{0,1001}", "count", 1),
        ("a)", "syntax", 1),
        ("(?x", "syntax", 2),
        ("(?", "syntax", 2),
        ("(?<a>b)", "unsupported", 0),
        ("é(?<a>b)", "unsupported", 2),
        ("[", "syntax", 1),
        ("[a", "syntax", 2),
        ("[b-a]", "syntax", 3),
        ("[a-c-e]", "syntax", 5),
        ("[\\d-a]", "syntax", 4),
        ("[a-\\d]", "syntax", 4),
        ("[a-c-", "syntax", 5),
        ("[a-c--", "syntax", 6),
        ("[a-c--]", "syntax", 6),
        ("[a-c--+]", "syntax", 6),
        ("[a-c--\\d]", "syntax", 7),
        ("[a-c----e]", "syntax", 8),
        ("[\\d--]", "syntax", 5),
        ("[\\d--+]", "syntax", 5),
        ("[b--e]", "syntax", 3),
        ("[b-\\x4", "syntax", 5),
        ("[b-\\x61]", "syntax", 6),
        ("[\\k]", "unsupported", 1),
        ("[z-\\k]", "unsupported", 3),
        ("\\", "syntax", 1),
        ("\\a", "syntax", 1),
        ("\\x4g", "syntax", 3),
        ("\\01", "syntax", 2),
        ("[\\01]", "syntax", 3),
        ("\\uD8", "syntax", 3),
        ("\\uD800", "unsupported", 0),
        ("\\uD7", "syntax", 4),
        ("[\\uE000-\\uD", "syntax", 10),
        ("(?:(?:a{100}){1000}){2}", "count", 20),
        ("(?:a{1000}){101}", "count", 11),
        ("(?=a{1000}){2}", "syntax", 13),
        ("(?:(?=a{1000})){101}", "count", 15),
        ("[\u{1f600}-\\u1234]", "syntax", 6),
        ("[\u{1f600}-\\uD800]", "unsupported", 6),
        ("\\k{1001}", "unsupported", 0),
        ("\\cA", "unsupported", 0),
        ("\\pL", "unsupported", 0),
        ("[\\B]", "syntax", 2),
    ]
}

fn told(fault: &PatternError) -> (&'static str, usize) {
    match fault {
        PatternError::Syntax { place } => ("syntax", *place),
        PatternError::Unsupported { place } => ("unsupported", *place),
        PatternError::CountTooLarge { place } => ("count", *place),
        PatternError::NoMemory => ("memory", 0),
    }
}

#[test]
fn tells_the_first_fault(rt: HostRuntime) -> Result<(), Fail> {
    for (text, kind, place) in faults() {
        match Pattern::parse(rt.alloc(), text) {
            Ok(_) => assert!(rt; false, "{text} is a pattern"),
            Err(fault) => {
                let (told_kind, told_place) = told(&fault);
                assert_eq!(rt; told_kind, *kind, "{text}");
                assert_eq!(rt; told_place, *place, "{text}");
            }
        }
    }
    Ok(())
}

// Patterns at the edges of the grammar and of the limits, with a text in which each is found.
fn accepted() -> &'static [(&'static str, &'static str)] {
    &[
        ("a{2,1}", "xa{2,1}x"),
        (
            "a{99999999999999999999,9999999999999999999}",
            "a{99999999999999999999,9999999999999999999}",
        ),
        ("a{0002}", "aa"),
        ("^a{1000}{|b", "b"),
        ("a{,5}", "a{,5}"),
        ("{", "{"),
        ("}]", "}]"),
        ("x{1,}?y", "xxy"),
        ("[^]", "\n"),
        ("[]-]|\\]", "]"),
        ("[--a]", "Q"),
        ("[+--]", ","),
        ("^[+--/][+--/]$", ",/"),
        ("^[\\d--0]+$", "-./09"),
        ("[-a]", "-"),
        ("\\0a", "\0a"),
        ("\\u00e9", "é"),
        ("[\\b]", "\u{8}"),
        ("^.$", "😀"),
        ("(?:(?:a{100}){1000})?", ""),
        ("^\\d\\D$", "1a"),
        ("^\\w\\W$", "_-"),
        ("^\\s\\S$", "\u{feff}x"),
        ("^\\t\\n\\v\\f\\r$", "\t\n\u{b}\u{c}\r"),
        ("^\\x41[\\x42-\\u0043]$", "AB"),
        ("^[\\D\\d][^\\S]\\$$", "5 $"),
        ("^[à-ü]😀$", "é😀"),
    ]
}

#[test]
fn accepts_the_edges(rt: HostRuntime) -> Result<(), Fail> {
    for (pattern, text) in accepted() {
        let found = Pattern::parse(rt.alloc(), pattern)?.is_found(rt.alloc(), text)?;
        assert!(rt; found, "{pattern}");
    }
    Ok(())
}

#[test]
fn hostile_patterns_answer_at_once(rt: HostRuntime) -> Result<(), Fail> {
    let text = "aaaaaaaaaaaaaaaaaaaaaaaaaaaaaa";
    assert!(rt; !Pattern::parse(rt.alloc(), "(a*)*b")?.is_found(rt.alloc(), text)?);
    assert!(rt; Pattern::parse(rt.alloc(), "(?:a|)*$")?.is_found(rt.alloc(), "b")?);
    let nested = Pattern::parse(rt.alloc(), "(?:(?:c|(?:c|c.*d)*e)*f)*x")?;
    assert!(rt; !nested.is_found(rt.alloc(), "cccccccccccccccccccccccccccc")?);
    Ok(())
}

fn repeated(alloc: Global, part: &str, times: u32) -> Result<String, AllocError> {
    let mut text = String::new(alloc);
    for _ in 0..times {
        text.push_str(part)?;
    }
    Ok(text)
}

// A part between so many openings and as many closings.
fn nested(alloc: Global, open: &str, close: &str, times: u32) -> Result<String, AllocError> {
    let mut text = repeated(alloc, open, times)?;
    text.push('a')?;
    text.push_str(repeated(alloc, close, times)?.as_str())?;
    Ok(text)
}

// Whether a pattern is found in 4,000 times `a`. Each of the following isn't, and would not end where walks are tried
// one after another.
fn is_found_in_a_row(alloc: Global, pattern: &str) -> Result<bool, Fail> {
    let text = repeated(alloc, "a", 4_000)?;
    Ok(Pattern::parse(alloc, pattern)?.is_found(alloc, text.as_str())?)
}

#[test]
fn alternatives_take_pattern_times_text(rt: HostRuntime) -> Result<(), Fail> {
    let alloc = rt.alloc();
    assert!(rt; !is_found_in_a_row(alloc, "(a|a)*b")?);
    let alternatives = repeated(alloc, "b|", 16_000)?;
    assert!(rt; !is_found_in_a_row(alloc, format!(in alloc; "{alternatives}b")?.as_str())?);
    Ok(())
}

#[test]
fn lookaheads_take_pattern_times_text(rt: HostRuntime) -> Result<(), Fail> {
    let alloc = rt.alloc();
    assert!(rt; !is_found_in_a_row(alloc, "(?!b)c")?);
    for open in ["(?=", "(?!"] {
        let lookaheads = nested(alloc, open, ")", 200)?;
        assert!(rt; !is_found_in_a_row(alloc, format!(in alloc; "{lookaheads}b")?.as_str())?);
    }
    Ok(())
}

#[test]
fn nested_repetitions_take_pattern_times_text(rt: HostRuntime) -> Result<(), Fail> {
    let alloc = rt.alloc();
    let repetitions = nested(alloc, "(?:", ")+", 199)?;
    assert!(rt; !is_found_in_a_row(alloc, format!(in alloc; "{repetitions}b")?.as_str())?);
    Ok(())
}

#[test]
fn nested_bounds_take_pattern_times_text(rt: HostRuntime) -> Result<(), Fail> {
    let alloc = rt.alloc();
    for (close, times) in [("){1,}", 199), ("){2,}", 9)] {
        let bounds = nested(alloc, "(?:", close, times)?;
        assert!(rt; !is_found_in_a_row(alloc, format!(in alloc; "{bounds}b")?.as_str())?);
    }
    Ok(())
}

#[test]
fn optional_parts_take_pattern_times_text(rt: HostRuntime) -> Result<(), Fail> {
    let alloc = rt.alloc();
    let maybes = repeated(alloc, "a?", 500)?;
    let many = repeated(alloc, "a", 500)?;
    assert!(rt; !is_found_in_a_row(alloc, format!(in alloc; "{maybes}{many}b")?.as_str())?);
    Ok(())
}

// Sixteen counts of two come to 65,536, and seventeen pass the limit.
#[test]
fn counts_nest_to_the_limit(rt: HostRuntime) -> Result<(), Fail> {
    let alloc = rt.alloc();
    let text = repeated(alloc, "a", 2_000)?;
    let sixteen = Pattern::parse(alloc, nested(alloc, "(?:", "){2,}", 16)?.as_str())?;
    assert!(rt; !sixteen.is_found(alloc, text.as_str())?);
    for (times, place) in [(17, 133), (199, 679)] {
        let deeper = nested(alloc, "(?:", "){2,}", times)?;
        let fault = Pattern::parse(alloc, deeper.as_str()).err();
        assert_eq!(rt; fault, Some(PatternError::CountTooLarge { place }));
    }
    Ok(())
}

#[test]
fn groups_nest_to_the_limit(rt: HostRuntime) -> Result<(), Fail> {
    let mut text = String::new(rt.alloc());
    for _ in 0..200 {
        text.push('(')?;
    }
    let mut deeper = text.clone()?;
    deeper.push('(')?;
    for _ in 0..200 {
        text.push(')')?;
    }
    assert!(rt; Pattern::parse(rt.alloc(), text.as_str())?.is_found(rt.alloc(), "")?);
    let fault = Pattern::parse(rt.alloc(), deeper.as_str()).err();
    assert!(rt; matches!(fault, Some(PatternError::CountTooLarge { place: 200 })));
    Ok(())
}

#[test]
fn a_copy_is_the_same_pattern(rt: HostRuntime) -> Result<(), Fail> {
    let copy = Pattern::parse(rt.alloc(), "^a")?.try_clone(rt.alloc())?;
    assert!(rt; copy.is_found(rt.alloc(), "ab")?);
    assert!(rt; !copy.is_found(rt.alloc(), "ba")?);
    Ok(())
}

// The ignore pattern that Yarn writes for its folder of editor files.
fn ignored() -> &'static str {
    "(^(?:\\.yarn\\/sdks(?:\\/(?!\\.{1,2}(?:\\/|$))(?:(?:(?!(?:^|\\/)\\.{1,2}(?:\\/|$)).)*?)|$))$)"
}

#[test]
fn finds_what_yarn_ignores(rt: HostRuntime) -> Result<(), Fail> {
    let pattern = Pattern::parse(rt.alloc(), ignored())?;
    for text in [
        ".yarn/sdks",
        ".yarn/sdks/",
        ".yarn/sdks/.bin",
        ".yarn/sdks/typescript/lib/tsc.js",
    ] {
        assert!(rt; pattern.is_found(rt.alloc(), text)?, "{text}");
    }
    for text in ["node_modules/foo", ".yarn/sdksx", ".yarn/sdk"] {
        assert!(rt; !pattern.is_found(rt.alloc(), text)?, "{text}");
    }
    let slashed = Pattern::parse(rt.alloc(), "^a\\/b$")?;
    assert!(rt; slashed.is_found(rt.alloc(), "a/b")?);
    assert!(rt; !slashed.is_found(rt.alloc(), "axb")?);
    Ok(())
}
