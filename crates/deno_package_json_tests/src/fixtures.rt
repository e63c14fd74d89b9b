// Tables, worked out by hand: a row a line, and what it comes to behind ` = `.

/// Texts of package.json files, each with a field and the compact JSON that it is kept as.
pub(crate) fn fields() -> &'static str {
    r##"# what isn't an object has no fields
[] | type = "none"
"x" | name = null
null | main = null
7 | version = null
# nor has an empty object
{} | type = "none"
# a text is kept as it stands
{"main":"m"} | main = "m"
{"main":" m "} | main = " m "
{"name":"n"} | name = "n"
# a number that is no float, by its digits
{"main":7} | main = "7"
{"main":-7} | main = "-7"
{"main":18446744073709551615} | main = "18446744073709551615"
{"main":-9223372036854775808} | main = "-9223372036854775808"
{"module":0} | module = "0"
{"version":1} | version = "1"
# a value of another kind isn't kept
{"main":null} | main = null
{"main":true} | main = null
{"main":[]} | main = null
{"main":{}} | main = null
{"name":["n"]} | name = null
# of a repeated key the last counts
{"name":"a","name":"b"} | name = "b"
# a type is one of two texts, or none
{"type":"module"} | type = "module"
{"type":"commonjs"} | type = "commonjs"
{"type":"Module"} | type = "none"
{"type":7} | type = "none"
{"type":null} | type = "none"
# typings count before types, also where they are of another kind
{"types":"t"} | types = "t"
{"types":"t","typings":"u"} | types = "u"
{"types":"t","typings":3} | types = "3"
{"types":"t","typings":null} | types = null
{"types":"t","typings":[]} | types = null
# imports are an object
{"imports":{"#a":1}} | imports = {"#a":1}
{"imports":"x"} | imports = null
{"imports":[1]} | imports = null
# bin is any value
{"bin":{"a":[1,true]}} | bin = {"a":[1,true]}
{"bin":false} | bin = false
# exports that are a text or a list, or have conditions for keys, are those of the package itself
{"exports":"x"} | exports = {".":"x"}
{"exports":["x",null]} | exports = {".":["x",null]}
{"exports":{"import":"x","":1}} | exports = {".":{"":1,"import":"x"}}
{"exports":{"./b":1,".":2}} | exports = {".":2,"./b":1}
{"exports":{}} | exports = {}
{"exports":null} | exports = null
{"exports":7} | exports = null
{"exports":true} | exports = null
# of dependencies and scripts the texts and the numbers are kept
{"dependencies":{"b":"1","a":2,"c":null,"d":[],"e":{},"f":true,"g":-3}} | dependencies = {"a":"2","b":"1","g":"-3"}
{"dependencies":[]} | dependencies = null
{"dependencies":"a"} | dependencies = null
{"dependencies":{}} | dependencies = {}
{"devDependencies":{"a":"^1"}} | devDependencies = {"a":"^1"}
{"scripts":{"b":"x","a":0}} | scripts = {"a":"0","b":"x"}
{"scripts":null} | scripts = null
# and so are those of a list of workspaces
{"workspaces":["a",1,null,true,[],{},"b"]} | workspaces = ["a","1","b"]
{"workspaces":{"packages":["a"]}} | workspaces = null"##
}

/// Texts, and which fault is told of each.
pub(crate) fn faults() -> &'static str {
    r#"# no text at all is an empty package
 = none
# what isn't one value of JSON
{ = Deserialize
{} {} = Deserialize
# a half of a pair of surrogates
{"name":"\ud800"} = Deserialize
# a float anywhere, and a number that is in no range of integers
{"x":1.5} = HoldsFloat
{"x":[{"y":1e2}]} = HoldsFloat
{"x":18446744073709551616} = HoldsFloat
{"x":-0} = HoldsFloat
1.5 = HoldsFloat
# before exports whose keys are mixed
{"exports":{".":1,"a":2.5}} = HoldsFloat
{"exports":{".":1,"a":2}} = MixedExports
{"exports":{"./a":1,"":2}} = MixedExports
# keys that begin with a dot are of one kind, and only those of the object itself count
{"exports":{"..":1,".":2}} = none
{"exports":[{".":1,"a":2}]} = none
{"imports":{".":1,"a":2}} = none"#
}

/// Values, and the JSON of the package that each is.
pub(crate) fn values() -> &'static str {
    r##"# no field
{} = {"bin":null,"dependencies":null,"devDependencies":null,"exports":null,"imports":null,"main":null,"module":null,"name":null,"scripts":null,"type":"none","types":null,"version":null,"workspaces":null}
# each field
{"name":"t","version":"1","exports":{".":"./m.js"},"bin":"./m.js","types":"./t.d.ts","imports":{"#t":"./m.js"},"main":"./m.js","module":"./n.js","type":"module","dependencies":{"n":"1.2"},"devDependencies":{"n":"1.2"},"scripts":{"t":"x"},"workspaces":["a","b"]} = {"bin":"./m.js","dependencies":{"n":"1.2"},"devDependencies":{"n":"1.2"},"exports":{".":"./m.js"},"imports":{"#t":"./m.js"},"main":"./m.js","module":"./n.js","name":"t","scripts":{"t":"x"},"type":"module","types":"./t.d.ts","version":"1","workspaces":["a","b"]}"##
}

/// Packages, with the main module that an ES module asks for, and the one that another module asks for.
pub(crate) fn mains() -> &'static str {
    r#"# without main there is none
{} = none, none
{"main":"m"} = m, m
# a module counts only in a package of modules, where an ES module asks
{"module":"n","main":"m"} = m, m
{"type":"commonjs","module":"n"} = none, none
{"type":"module","module":"n","main":"m"} = n, m
# also where it is empty
{"type":"module","module":"","main":"m"} = none, m
{"type":"module","main":"m"} = m, m
# white space around a text doesn't count
{"main":" \u00a0m n\t\n"} = m n, m n
{"main":" \u2003 "} = none, none
# a number is a text
{"main":7} = 7, 7"#
}

/// Paths with their file URLs: each byte that can stand in a text is in one of them, but the line feed, which ends a
/// row.
pub(crate) fn urls() -> &'static str {
    "# a blank, characters of two to four bytes, and parts that aren't normal
/a b/package.json = file:///a%20b/package.json
/\u{e9}\u{20ac}\u{1f600} = file:///%C3%A9%E2%82%AC%F0%9F%98%80
/./a//../b/ = file:///./a//../b/
# the bytes below 128
/\x00\x01\x02\x03\x04\x05\x06\x07\x08\x09\x0b\x0c\x0d\x0e\x0f = file:///%00%01%02%03%04%05%06%07%08%09%0B%0C%0D%0E%0F
/\x10\x11\x12\x13\x14\x15\x16\x17\x18\x19\x1a\x1b\x1c\x1d\x1e\x1f = file:///%10%11%12%13%14%15%16%17%18%19%1A%1B%1C%1D%1E%1F
/ !\"#$%&'()*+,-./0123456789:;<=>? = file:///%20!%22%23$%25&'()*+,-./0123456789:;%3C=%3E%3F
/@ABCDEFGHIJKLMNOPQRSTUVWXYZ[\\]^_ = file:///@ABCDEFGHIJKLMNOPQRSTUVWXYZ%5B%5C%5D%5E_
/`abcdefghijklmnopqrstuvwxyz{|}~\x7f = file:///%60abcdefghijklmnopqrstuvwxyz%7B%7C%7D~%7F
# each byte from 128 to 191 behind the lead byte 194
/\u{80}\u{81}\u{82}\u{83}\u{84}\u{85}\u{86}\u{87}\u{88}\u{89}\u{8a}\u{8b}\u{8c}\u{8d}\u{8e}\u{8f} = file:///%C2%80%C2%81%C2%82%C2%83%C2%84%C2%85%C2%86%C2%87%C2%88%C2%89%C2%8A%C2%8B%C2%8C%C2%8D%C2%8E%C2%8F
/\u{90}\u{91}\u{92}\u{93}\u{94}\u{95}\u{96}\u{97}\u{98}\u{99}\u{9a}\u{9b}\u{9c}\u{9d}\u{9e}\u{9f} = file:///%C2%90%C2%91%C2%92%C2%93%C2%94%C2%95%C2%96%C2%97%C2%98%C2%99%C2%9A%C2%9B%C2%9C%C2%9D%C2%9E%C2%9F
/\u{a0}\u{a1}\u{a2}\u{a3}\u{a4}\u{a5}\u{a6}\u{a7}\u{a8}\u{a9}\u{aa}\u{ab}\u{ac}\u{ad}\u{ae}\u{af} = file:///%C2%A0%C2%A1%C2%A2%C2%A3%C2%A4%C2%A5%C2%A6%C2%A7%C2%A8%C2%A9%C2%AA%C2%AB%C2%AC%C2%AD%C2%AE%C2%AF
/\u{b0}\u{b1}\u{b2}\u{b3}\u{b4}\u{b5}\u{b6}\u{b7}\u{b8}\u{b9}\u{ba}\u{bb}\u{bc}\u{bd}\u{be}\u{bf} = file:///%C2%B0%C2%B1%C2%B2%C2%B3%C2%B4%C2%B5%C2%B6%C2%B7%C2%B8%C2%B9%C2%BA%C2%BB%C2%BC%C2%BD%C2%BE%C2%BF
# each other lead byte, up to 244
/\u{c0}\u{100}\u{140}\u{180}\u{1c0}\u{200}\u{240}\u{280}\u{2c0}\u{300}\u{340}\u{380}\u{3c0}\u{400}\u{440} = file:///%C3%80%C4%80%C5%80%C6%80%C7%80%C8%80%C9%80%CA%80%CB%80%CC%80%CD%80%CE%80%CF%80%D0%80%D1%80
/\u{480}\u{4c0}\u{500}\u{540}\u{580}\u{5c0}\u{600}\u{640}\u{680}\u{6c0}\u{700}\u{740}\u{780}\u{7c0} = file:///%D2%80%D3%80%D4%80%D5%80%D6%80%D7%80%D8%80%D9%80%DA%80%DB%80%DC%80%DD%80%DE%80%DF%80
/\u{800}\u{1000}\u{2000}\u{3000}\u{4000}\u{5000}\u{6000}\u{7000} = file:///%E0%A0%80%E1%80%80%E2%80%80%E3%80%80%E4%80%80%E5%80%80%E6%80%80%E7%80%80
/\u{8000}\u{9000}\u{a000}\u{b000}\u{c000}\u{d000}\u{e000}\u{f000} = file:///%E8%80%80%E9%80%80%EA%80%80%EB%80%80%EC%80%80%ED%80%80%EE%80%80%EF%80%80
/\u{10000}\u{40000}\u{80000}\u{c0000}\u{100000} = file:///%F0%90%80%80%F1%80%80%80%F2%80%80%80%F3%80%80%80%F4%80%80%80"
}

/// Packages, and what each requires: the name that it asks for, the kind, and the range or what is refused.
pub(crate) fn requirements() -> &'static str {
    r#"# ranges and tags, by the name itself
{"devDependencies":{"a":"^1.2"}} = a: Req a <^1.2>
{"devDependencies":{"a":"1.x || >=2.5.0"}} = a: Req a <1.x || >=2.5.0>
{"devDependencies":{"a":""}} = a: Req a <>
{"devDependencies":{"a":"*"}} = a: Req a <*>
{"devDependencies":{"a":"latest"}} = a: Req a <latest>
{"devDependencies":{"a":" ~1.3 "}} = a: Req a < ~1.3 >
# a package of another name
{"devDependencies":{"a":"npm:package@~1.3"}} = a: Req package <~1.3>
{"devDependencies":{"a":"npm:package"}} = a: Req package <*>
{"devDependencies":{"a":"npm:@s/n"}} = a: Req @s/n <*>
{"devDependencies":{"a":"npm:@s/n@^2"}} = a: Req @s/n <^2>
{"devDependencies":{"a":"npm:@s"}} = a: Req @s <*>
{"devDependencies":{"a":"npm:@"}} = a: Req @ <*>
{"devDependencies":{"a":"npm:"}} = a: Req  <*>
{"devDependencies":{"a":"npm:p@"}} = a: Req p <>
{"devDependencies":{"a":"npm:p@1@2"}} = a: Req p@1 <2>
{"devDependencies":{"a":"npm:p@x y"}} = a: VersionReq <x y> at 2
# packages of the workspace
{"devDependencies":{"a":"workspace:1.1.1"}} = a: Workspace <1.1.1>
{"devDependencies":{"a":"workspace:*"}} = a: Workspace <*>
{"devDependencies":{"a":"workspace:^"}} = a: VersionReq <^> at 0
{"devDependencies":{"a":"workspace:../p"}} = a: VersionReq <../p> at 0
# schemes that aren't supported, and what is none
{"devDependencies":{"a":"git:something"}} = a: Unsupported <git>
{"devDependencies":{"a":"file:../p"}} = a: Unsupported <file>
{"devDependencies":{"a":"http://h/p.tgz"}} = a: Unsupported <http>
{"devDependencies":{"a":"https://h:1/p.tgz"}} = a: Unsupported <https>
{"devDependencies":{"a":"git+ssh://h/p"}} = a: VersionReq <git+ssh://h/p> at 0
{"devDependencies":{"a":"link:../p"}} = a: VersionReq <link:../p> at 0
{"devDependencies":{"a":"Workspace:1"}} = a: VersionReq <Workspace:1> at 0
{"devDependencies":{"a":"%*(#$%()"}} = a: VersionReq <%*(#$%()> at 0
# dependencies come first, and each name once
{"devDependencies":{"package_b":"~2.2","other":"^3.2"},"dependencies":{"test":"^1.2","other":"npm:package@~1.3"}} = other: Req package <~1.3>; test: Req test <^1.2>; package_b: Req package_b <~2.2>"#
}
