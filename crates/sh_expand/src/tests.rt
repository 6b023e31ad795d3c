//! Patterns, fields and environments.

use super::*;
use bd_dev::Names;
use sh_tree::{Pattern, Pieces};
use std::alloc::Global;
use std::test::Fail;

// a pattern of these bytes, in which those after a `\` are quoted
fn pattern(alloc: Global, text: &[u8]) -> Result<Pattern, Fail> {
    let mut pattern = Pattern::new(alloc);
    let mut quoted = false;
    for byte in text {
        if *byte == b'\\' && !quoted {
            quoted = true;
        } else {
            pattern.push(*byte, quoted)?;
            quoted = false;
        }
    }
    Ok(pattern)
}

#[test]
fn patterns_match(rt: HostRuntime) -> Result<(), Fail> {
    let rows: [(&[u8], &[u8]); 24] = [
        (b"*.bin", b"a.bin"),
        (b"", b""),
        (b"*", b""),
        (b"a*b*c", b"a.b.b.c"),
        (b"**a**", b"ba"),
        (b"?", b"\n"),
        (b"\\*", b"*"),
        (b"[^a]", b"^"),
        (b"[^a]", b"a"),
        (b"[a-]", b"-"),
        (b"[]]", b"]"),
        (b"[", b"["),
        (b"[a", b"[a"),
        (b"[]", b"[]"),
        (b"[!]", b"[!]"),
        (b"[!]]", b"a"),
        (b"[a\\-c]", b"-"),
        (b"[\\!a]", b"!"),
        (b"[\\]a]", b"]"),
        (b"[a-c-e]", b"-"),
        (b"[[:alpha:]]", b"a]"),
        (b"a[!c]", b"ab"),
        (b"*[0-9]x", b"77x"),
        (b"*", b"a/.b"),
    ];
    for (text, matching) in rows {
        let pattern = pattern(rt.alloc(), text)?;
        assert!(rt; matches(&pattern, matching));
    }
    Ok(())
}

#[test]
fn other_texts_do_not_match(rt: HostRuntime) -> Result<(), Fail> {
    let rows: [(&[u8], &[u8]); 14] = [
        (b"[!a]", b"a"),
        (b"\\*", b"x"),
        (b"", b"a"),
        (b"?", b""),
        (b"?", b"ab"),
        (b"a*b", b"a"),
        (b"[c-a]", b"b"),
        (b"[a\\-c]", b"b"),
        (b"[a-c-e]", b"d"),
        (b"[!a]", b""),
        (b"[[:alpha:]]", b"a"),
        (b"*.bin", b"a.bin.gz"),
        (b"[a", b"a"),
        (b"a?c", b"abbc"),
    ];
    for (text, other) in rows {
        let pattern = pattern(rt.alloc(), text)?;
        assert!(rt; !matches(&pattern, other));
    }
    Ok(())
}

// pieces of these bytes, in which those after a `\` are quoted
fn pieces(alloc: Global, text: &[u8]) -> Result<Pieces, Fail> {
    let mut pieces = Pieces::new(alloc);
    let mut quoted = false;
    for byte in text {
        if *byte == b'\\' && !quoted {
            quoted = true;
        } else {
            pieces.push(*byte, quoted)?;
            quoted = false;
        }
    }
    Ok(pieces)
}

// the fields, each with a `|` after it
fn joined(alloc: Global, fields: &Names) -> Result<Vec<u8>, Fail> {
    let mut all = Vec::new(alloc);
    for field in fields.as_slice() {
        all.extend_from_slice(field.as_slice())?;
        all.push(b'|')?;
    }
    Ok(all)
}

#[test]
fn words_split_into_fields(rt: HostRuntime) -> Result<(), Fail> {
    let rows: [(&[u8], &[u8], &[u8]); 12] = [
        (b" a  b ", b" \t\n", b"a|b|"),
        (b"a::b", b":", b"a||b|"),
        (b"a:", b":", b"a|"),
        (b":", b":", b"|"),
        (b" a : : b ", b": ", b"a||b|"),
        (b"a b", b"", b"a b|"),
        (b"", b" ", b""),
        (b"  ", b" ", b""),
        (b"a\\ b c", b" ", b"a b|c|"),
        (b" : a", b": ", b"|a|"),
        (b"212", b"1", b"2|2|"),
        (b"a\r b", b"\r", b"a| b|"),
    ];
    for (text, ifs, fields) in rows {
        let pieces = pieces(rt.alloc(), text)?;
        let names = split_fields(rt.alloc(), &pieces, ifs)
            .ok()
            .ok_or("no fields")?;
        let all = joined(rt.alloc(), &names)?;
        assert_eq!(rt; all.as_slice(), fields);
    }
    Ok(())
}

#[test]
fn variables_are_set_in_order(rt: HostRuntime) -> Result<(), Fail> {
    let mut env = Env::new(rt.alloc(), &[])?;
    assert!(rt; env.set(b"x", b"5").is_ok());
    assert!(rt; env.set(b"y", b"-0x10").is_ok());
    assert!(rt; env.set(b"x", b"6").is_ok());
    assert_eq!(rt; env.get(b"x").ok_or("unset")?, b"6".as_slice());
    assert_eq!(rt; arithmetic(&env, b"x + y + nope").ok().ok_or("bad")?, -10);
    assert_eq!(rt; arithmetic(&env, b"1 << 64").err(), Some(ExpandFault::Bad));
    let copy = env.copy()?;
    env.unset(b"x");
    assert!(rt; env.get(b"x").is_none());
    assert!(rt; copy.get(b"x").is_some());
    assert_eq!(rt; copy.last(), 0);
    assert!(rt; !copy.flags().nounset);
    assert!(rt; copy.words().is_empty());
    Ok(())
}

#[test]
fn fronts_are_cut(rt: HostRuntime) -> Result<(), Fail> {
    let rows: [(&[u8], &[u8], Option<&[u8]>, Option<&[u8]>); 9] = [
        (b"*.", b"a.b.c", Some(b"b.c"), Some(b"c")),
        (b"*X", b"aXbXc", Some(b"bXc"), Some(b"c")),
        (b"*", b"abc", Some(b"abc"), Some(b"")),
        (b"", b"abc", Some(b"abc"), Some(b"abc")),
        (b"z", b"abc", None, None),
        (b"a*b", b"abb", Some(b"b"), Some(b"")),
        (b"*a*a", b"xaxaxay", Some(b"xay"), Some(b"y")),
        (b"?", b"", None, None),
        (b"[!b]", b"ab", Some(b"b"), Some(b"b")),
    ];
    for (text, whole, short, long) in rows {
        let pattern = pattern(rt.alloc(), text)?;
        assert!(rt; cut_front(&pattern, whole, false) == short);
        assert!(rt; cut_front(&pattern, whole, true) == long);
    }
    Ok(())
}

#[test]
fn ends_are_cut(rt: HostRuntime) -> Result<(), Fail> {
    let rows: [(&[u8], &[u8], Option<&[u8]>, Option<&[u8]>); 11] = [
        (b".*", b"a.b.c", Some(b"a.b"), Some(b"a")),
        (b"X*", b"aXbXc", Some(b"aXb"), Some(b"a")),
        (b"*", b"abc", Some(b"abc"), Some(b"")),
        (b"", b"abc", Some(b"abc"), Some(b"abc")),
        (b"z", b"abc", None, None),
        (b"c", b"abc", Some(b"ab"), Some(b"ab")),
        (b"a*b", b"aab", Some(b"a"), Some(b"")),
        (b"a*a*", b"yaxaxax", Some(b"yax"), Some(b"y")),
        (b"?", b"", None, None),
        (b"[!b]", b"ba", Some(b"b"), Some(b"b")),
        (b"[a-c]\\*", b"xb*", Some(b"x"), Some(b"x")),
    ];
    for (text, whole, short, long) in rows {
        let pattern = pattern(rt.alloc(), text)?;
        assert!(rt; cut_end(rt.alloc(), &pattern, whole, false)? == short);
        assert!(rt; cut_end(rt.alloc(), &pattern, whole, true)? == long);
    }
    Ok(())
}
