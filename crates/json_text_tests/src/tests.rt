ghost use Rattle.json_text.specs.Nodes.{IsNodeOf};

use json_text::{Comparison, JsonFault, Kind, Node, Tree, put_text};
use lists::Bytes;
use std::alloc::Global;
use std::process::Abort;
use std::test::Fail;

/// Whether the bytes end as told: read, not JSON at a place, or too deep at a place.
#[derive(Clone, Copy, Debug, PartialEq, Eq)]
enum Answer {
    Reads,
    NotJson(u64),
    TooDeep(u64),
    NoMemory,
}

fn answer_to(alloc: Global, bytes: &[u8]) -> Answer {
    match Tree::read(alloc, bytes) {
        Ok(_tree) => Answer::Reads,
        Err(JsonFault::NotJson { at }) => Answer::NotJson(at),
        Err(JsonFault::TooDeep { at }) => Answer::TooDeep(at),
        Err(JsonFault::Memory) => Answer::NoMemory,
    }
}

#[test]
fn places(rt: HostRuntime) -> Result<(), Fail> {
    let rows: [(&[u8], Answer); 46] = [
        (b"nul", Answer::NotJson(3)),
        (b"01", Answer::NotJson(1)),
        (b"{\"a\":1,}", Answer::NotJson(7)),
        (b"\"\\ud800\"", Answer::NotJson(7)),
        (b"", Answer::NotJson(0)),
        (b" \t\r\n", Answer::NotJson(4)),
        (b" \t\r\nnull \t\r\n", Answer::Reads),
        (b"nullx", Answer::NotJson(4)),
        (b"true", Answer::Reads),
        (b"falsy", Answer::NotJson(4)),
        (b"-0", Answer::Reads),
        (b"-", Answer::NotJson(1)),
        (b"1E+2", Answer::Reads),
        (b"1.", Answer::NotJson(2)),
        (b".5", Answer::NotJson(0)),
        (b"+1", Answer::NotJson(0)),
        (b"0e", Answer::NotJson(2)),
        (b"1.50e-3 ", Answer::Reads),
        (b"[1 2]", Answer::NotJson(3)),
        (b"[1,]", Answer::NotJson(3)),
        (b"[]]", Answer::NotJson(2)),
        (b"[}", Answer::NotJson(1)),
        (b"{\"a\":1,\"a\":[2,{}]}", Answer::Reads),
        (b"{\"a\" 1}", Answer::NotJson(5)),
        (b"{1:2}", Answer::NotJson(1)),
        (b"{,}", Answer::NotJson(1)),
        (b"\"\\ud83d\\ude00\"", Answer::Reads),
        (b"\"\\udc00\"", Answer::NotJson(4)),
        (b"\"\\ud800x\"", Answer::NotJson(7)),
        (b"\"\\ud800\\u0041\"", Answer::NotJson(9)),
        (b"\"\\uFFFF\"", Answer::Reads),
        (b"\"\\x\"", Answer::NotJson(2)),
        (b"\"\x01\"", Answer::NotJson(1)),
        (b"\"\x7f\"", Answer::Reads),
        (b"\"\xc3\xa9\"", Answer::Reads),
        (b"\"\xc0\x80\"", Answer::NotJson(1)),
        (b"\"\xe0\x9f\xbf\"", Answer::NotJson(2)),
        (b"\"\xe0\xa0\x80\"", Answer::Reads),
        (b"\"\xed\xa0\x80\"", Answer::NotJson(2)),
        (b"\"\xf0\x90\x80\x80\"", Answer::Reads),
        (b"\"\xf4\x90\x80\x80\"", Answer::NotJson(2)),
        (b"\"\xef\xbf\xbf\"", Answer::Reads),
        (b"\"\xf5\x80\x80\x80\"", Answer::NotJson(1)),
        (b"\"\x80\"", Answer::NotJson(1)),
        (b"\xef\xbb\xbf1", Answer::NotJson(0)),
        (b"\"abc", Answer::NotJson(4)),
    ];
    for (bytes, expected) in rows {
        assert_eq!(&rt; answer_to(rt.alloc(), bytes), expected);
    }
    Ok(())
}

/// A text with each kind of value, escape and space, which ends in its last byte.
const RICH: &[u8] =
    b" {\t\"p\" :\n[1.50, -0,1e+2,0.1E-3,true , false,null,[ ],{ }],\r\"q\\u0041\\\"\":\"\\n\\ud83d\\ude00 \xc3\xa9\xe2\x82\xac\xf0\x9f\x98\x80/\",\"\":{\"p\":\"\"}}";

#[test]
fn prefixes(rt: HostRuntime) -> Result<(), Fail> {
    assert_eq!(&rt; answer_to(rt.alloc(), RICH), Answer::Reads);
    for size in 0..RICH.len() {
        assert_eq!(&rt;
            answer_to(rt.alloc(), &RICH[..size]),
            Answer::NotJson(size as u64)
        );
    }
    Ok(())
}

// Neither byte comes in a JSON text.
#[test]
fn corruptions(rt: HostRuntime) -> Result<(), Fail> {
    for wrong in [0x01u8, 0xff] {
        for place in 0..RICH.len() {
            let mut text = Vec::from_slice(rt.alloc(), RICH)?;
            text[place] = wrong;
            assert_eq!(&rt;
                answer_to(rt.alloc(), text.as_slice()),
                Answer::NotJson(place as u64)
            );
        }
    }
    Ok(())
}

// So many bytes of one kind.
fn filled(alloc: Global, byte: u8, size: usize) -> Result<Vec<u8>, Fail> {
    Ok(vec![in alloc; byte; size]?)
}

#[test]
fn large_texts(rt: HostRuntime) -> Result<(), Fail> {
    let size = 4 * 1024 * 1024;
    let brackets = filled(rt.alloc(), b'[', size)?;
    assert_eq!(&rt;
        answer_to(rt.alloc(), brackets.as_slice()),
        Answer::TooDeep(64)
    );
    let mut text = Vec::from_slice(rt.alloc(), b"\"")?;
    text.resize(size, b'a')?;
    assert_eq!(&rt;
        answer_to(rt.alloc(), text.as_slice()),
        Answer::NotJson(size as u64)
    );
    text.push(b'"')?;
    assert_eq!(&rt; answer_to(rt.alloc(), text.as_slice()), Answer::Reads);
    Ok(())
}

#[test]
fn depth(rt: HostRuntime) -> Result<(), Fail> {
    let open = [b'['; 65];
    assert_eq!(&rt; answer_to(rt.alloc(), &open[..64]), Answer::NotJson(64));
    assert_eq!(&rt; answer_to(rt.alloc(), &open), Answer::TooDeep(64));
    Ok(())
}

#[test]
fn nodes(rt: HostRuntime) -> Result<(), Fail> {
    let tree = Tree::read(rt.alloc(), b" {\"p\" : [1.50, true, {}], \"q\":null} ")?;
    let root = tree.root();
    assert!(&rt; tree.kind(root) == Kind::Object);
    assert_eq!(&rt; tree.len(root), 2);
    let Some(list) = tree.item(root, 0) else {
        return Err(Fail::new("no node"))
    };
    assert!(&rt; tree.kind(list) == Kind::List);
    assert_eq!(&rt; tree.len(list), 3);
    assert!(&rt; tree.item(list, 3).is_none());
    let Some(key) = tree.key(root, 1) else {
        return Err(Fail::new("no node"))
    };
    assert!(&rt; tree.kind(key) == Kind::Text);
    assert!(&rt; tree.key(root, 2).is_none());
    let mut items = tree.items(list);
    for k in 0..4 {
        assert_eq!(&rt; items.next(), tree.item(list, k));
    }
    assert_eq!(&rt; tree.items(root).count(), 0);
    Ok(())
}

#[test]
fn slices(rt: HostRuntime) -> Result<(), Fail> {
    let tree = Tree::read(rt.alloc(), b" {\"p\":1.50,\"q\" : 1e2 } ")?;
    let root = tree.root();
    assert_eq!(&rt; tree.slice(root), b"{\"p\":1.50,\"q\" : 1e2 }".as_slice());
    for (name, expected) in [("p", "1.50"), ("q", "1e2")] {
        let Some(value) = tree.member(root, name.as_bytes()) else {
            return Err(Fail::new("no member"))
        };
        assert_eq!(&rt; tree.slice(value), expected.as_bytes());
    }
    assert!(&rt; tree.member(root, b"r").is_none());
    Ok(())
}

#[test]
fn members(rt: HostRuntime) -> Result<(), Fail> {
    let tree = Tree::read(
        rt.alloc(),
        b"{\"a\":1,\"\":2,\"\\u0061\":3,\"b\":{\"a\":4},\"a\":[5],\"\\ud83d\\ude00\":6}",
    )?;
    let root = tree.root();
    for (name, expected) in [
        ("a", "[5]"),
        ("", "2"),
        ("b", "{\"a\":4}"),
        ("\u{1f600}", "6"),
    ] {
        let Some(value) = tree.member(root, name.as_bytes()) else {
            return Err(Fail::new("no member"))
        };
        assert_eq!(&rt; tree.slice(value), expected.as_bytes());
    }
    Ok(())
}

#[test]
fn texts(rt: HostRuntime) -> Result<(), Fail> {
    let tree = Tree::read(
        rt.alloc(),
        b"\"\\\"\\\\\\/\\b\\f\\n\\r\\t\\u0041\\u00e9\\u20AC\\ud83d\\ude00x\"",
    )?;
    let root = tree.root();
    if tree.kind(root) != Kind::Text {
        return Err(Fail::new("no text"));
    }
    let text = tree.text_of(root)?;
    assert_eq!(&rt;
        text.as_slice(),
        "\"\\/\u{8}\u{c}\n\r\tA\u{e9}\u{20ac}\u{1f600}x".as_bytes()
    );
    Ok(())
}

/// The text of the whole, where it is a string without escapes.
fn plain_root<'a>(tree: &Tree<'a>) -> Option<&'a [u8]> {
    let root = tree.root();
    if tree.kind(root) == Kind::Text {
        tree.plain_text(root)
    } else {
        None
    }
}

#[test]
fn plain_texts(rt: HostRuntime) -> Result<(), Fail> {
    let tree = Tree::read(rt.alloc(), b" \"ab\" ")?;
    assert!(&rt; plain_root(&tree) == Some(b"ab".as_slice()));
    let escaped = Tree::read(rt.alloc(), b"\"a\\u0062\"")?;
    assert!(&rt; plain_root(&escaped).is_none());
    Ok(())
}

#[test]
fn written(rt: HostRuntime) -> Result<(), Fail> {
    let mut out = Bytes::new(rt.alloc());
    put_text(&mut out, "a\"\\\n\u{1f}\u{7f}\u{e9}\u{1f600}".as_bytes())?;
    assert_eq!(&rt;
        out.as_slice(),
        "\"a\\\"\\\\\\u000a\\u001f\u{7f}\u{e9}\u{1f600}\"".as_bytes()
    );
    Ok(())
}

// What is written of a text is read as it.
fn check_round_trip(rt: &(impl Abort + AllocGlobal), text: &[u8]) -> Result<(), Fail> {
    let mut out = Bytes::new(rt.alloc());
    put_text(&mut out, text)?;
    let tree = Tree::read(rt.alloc(), out.as_slice())?;
    if tree.kind(tree.root()) != Kind::Text {
        return Err(Fail::new("no text"));
    }
    let read = tree.text_of(tree.root())?;
    assert_eq!(rt; read.as_slice(), text);
    Ok(())
}

#[test]
fn round_trips(rt: HostRuntime) -> Result<(), Fail> {
    for byte in 0u8..0x80 {
        check_round_trip(&rt, &[byte])?;
    }
    for text in [
        "",
        "\u{80}",
        "\u{7ff}",
        "\u{800}",
        "\u{ffff}",
        "\u{10000}",
        "\u{10ffff}",
        "a\\\"b\u{0}",
    ] {
        check_round_trip(&rt, text.as_bytes())?;
    }
    Ok(())
}

fn compared(alloc: Global, left: &[u8], right: &[u8]) -> Result<Comparison, Fail> {
    let left = Tree::read(alloc, left)?;
    let right = Tree::read(alloc, right)?;
    Ok(left.compare(left.root(), &right, right.root())?)
}

#[test]
fn comparisons(rt: HostRuntime) -> Result<(), Fail> {
    let rows: [(&[u8], &[u8], Comparison); 20] = [
        (b"1.50", b"15e-1", Comparison::Equal),
        (b"-0", b"0", Comparison::Equal),
        (b"1", b"2", Comparison::Unequal),
        (b"1e20", b"1", Comparison::OutOfRange),
        (b"1", b"1e20", Comparison::OutOfRange),
        (b"1e-19", b"null", Comparison::OutOfRange),
        (b"\"a\"", b"\"\\u0061\"", Comparison::Equal),
        (b"\"1\"", b"1", Comparison::Unequal),
        (b"null", b"false", Comparison::Unequal),
        (b"[1,2]", b" [1.0 , 2]", Comparison::Equal),
        (b"[1]", b"[1,1]", Comparison::Unequal),
        (b"[1,[2]]", b"[[1],2]", Comparison::Unequal),
        (b"[[]]", b"[]", Comparison::Unequal),
        (b"[]", b"{}", Comparison::Unequal),
        (
            b"{\"a\":1,\"b\":2}",
            b"{\"b\":2,\"\\u0061\":1}",
            Comparison::Equal,
        ),
        (b"{\"a\":1}", b"{\"b\":1}", Comparison::Unequal),
        (b"{\"a\":1,\"a\":2}", b"{\"a\":2}", Comparison::Equal),
        (b"{\"a\":1,\"a\":2}", b"{\"a\":1}", Comparison::Unequal),
        (b"{\"a\":1e20,\"a\":2}", b"{\"a\":2}", Comparison::Equal),
        (
            b"{\"a\":[{\"b\":1e20}]}",
            b"{\"a\":2}",
            Comparison::OutOfRange,
        ),
    ];
    for (left, right, expected) in rows {
        assert_eq!(&rt; compared(rt.alloc(), left, right)?, expected);
    }
    Ok(())
}

/// Where the k-th item or member's value begins.
fn start_of(tree: &Tree<'_>, k: usize) -> Option<usize> {
    Some(tree.start(tree.item(tree.root(), k)?))
}

#[test]
fn starts(rt: HostRuntime) -> Result<(), Fail> {
    let rows: [(&[u8], usize, Option<usize>); 6] = [
        (b"[1,1]", 0, Some(1)),
        (b"[1,1]", 1, Some(3)),
        (b" [ [1 ,1], 1 ,\t1]", 2, Some(15)),
        (b"{\"1\" : 1, \"1\":1}", 0, Some(7)),
        (b"{\"1\" : 1, \"1\":1}", 1, Some(14)),
        (b"[]", 0, None),
    ];
    for (text, k, expected) in rows {
        let tree = Tree::read(rt.alloc(), text)?;
        assert_eq!(&rt; start_of(&tree, k), expected);
    }
    let tree = Tree::read(rt.alloc(), b"\r\n 1")?;
    assert_eq!(&rt; tree.start(tree.root()), 3);
    assert_eq!(&rt; units_of_root(&tree), Some(1_000_000_000_000_000_000));
    Ok(())
}

fn units_of_root(tree: &Tree<'_>) -> Option<i128> {
    let root = tree.root();
    if tree.kind(root) == Kind::Number {
        tree.units(root)
    } else {
        None
    }
}

/// How many bytes the values take of the members of this name.
#[tactic(auto, using(json_text::proofs::Loops::name_in_loop, json_text::proofs::Loops::value_in_loop))]
fn bytes_of(tree: &Tree<'_>, node: Node, text: &[u8]) -> usize
    requires { IsNodeOf tree.now node }
{
    let mut bytes: usize = 0;
    for (name, value) in tree.members(node) {
        if tree.is_text(name, text) {
            bytes = bytes.saturating_add(tree.slice(value).len());
        }
    }
    bytes
}

/// How many bytes the items of a list take.
#[tactic(auto, using(json_text::proofs::Loops::node_in_loop))]
fn bytes_in(tree: &Tree<'_>, list: Node) -> usize
    requires { IsNodeOf tree.now list }
{
    let mut bytes: usize = 0;
    for item in tree.items(list) {
        bytes = bytes.saturating_add(tree.slice(item).len());
    }
    bytes
}

#[test]
fn members_in_order(rt: HostRuntime) -> Result<(), Fail> {
    let tree = Tree::read(rt.alloc(), b"{\"a\":10,\"b\":200,\"\\u0061\":[]}")?;
    assert_eq!(&rt; bytes_of(&tree, tree.root(), b"a"), 4);
    assert_eq!(&rt; bytes_of(&tree, tree.root(), b"c"), 0);
    Ok(())
}

#[test]
fn items_in_order(rt: HostRuntime) -> Result<(), Fail> {
    let tree = Tree::read(rt.alloc(), b"[10,\"bc\",[ ]]")?;
    assert_eq!(&rt; bytes_in(&tree, tree.root()), 9);
    Ok(())
}
