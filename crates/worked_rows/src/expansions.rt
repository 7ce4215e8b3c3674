//! What no clause shows: scanned webs beside items worked out by hand.
use crate::webs::{BY_DEFAULT, HELPERS, NUMERIC, scan_text};
use macro_expand::{ExpandErr, Item, Stream};
use std::alloc::Global;
use std::test::Fail;
use wb_base::{Joined, OutOfMemory, Text};
use web_scan::Web;

// A number between marks.
fn push_marked(
    text: &mut Text,
    before: &[u8],
    value: i64,
    after: &[u8],
) -> Result<(), OutOfMemory> {
    text.push_all(before)?;
    text.push_number(value)?;
    text.push_all(after)
}

// An item as it is written in the rows: constants stand in `<>`, the marks of pieces in braces.
fn push_item(text: &mut Text, item: Item<'_>) -> Result<(), OutOfMemory> {
    match item {
        Item::Digit(byte) | Item::Sign(byte) => text.push(byte),
        Item::Number(value) => push_marked(text, b"<", value, b">"),
        Item::Word(bytes) | Item::Quoted(bytes) | Item::Verbatim(bytes) => text.push_all(bytes),
        Item::Joined(Joined::Becomes) => text.push_all(b":="),
        Item::Joined(_) => text.push_all(b".."),
        Item::Join => text.push(b'&'),
        Item::Line => text.push(b'/'),
        Item::MetaOpen => text.push_all(b"@{"),
        Item::MetaClose => text.push_all(b"@}"),
        Item::Open(number) => push_marked(text, b"{", i64::from(number), b":"),
        Item::Close(number) => push_marked(text, b":", i64::from(number), b"}"),
    }
}

// The items of a web, and the fault behind them, if there is one.
fn expanded(alloc: Global, web: &Web) -> Result<(Text, Option<ExpandErr>), OutOfMemory> {
    let mut text = Text::new(alloc);
    let mut stream = Stream::new(web);
    for _ in 0..1000 {
        match stream.next() {
            Ok(Some(item)) => push_item(&mut text, item)?,
            Ok(None) => return Ok((text, None)),
            Err(fault) => return Ok((text, Some(fault))),
        }
    }
    Ok((text, None))
}

// A web, and its items with the fault behind them.
#[derive(Clone, Copy)]
struct Row {
    web: &'static [u8],
    items: &'static [u8],
    fault: Option<ExpandErr>,
}

#[test]
fn expands(rt: HostRuntime) -> Result<(), Fail> {
    #[rattlefmt::skip]
    let rows = [
        Row { web: b"@ @p aa@\\bb 'c'@=d@>@&:=7", items: b"{1:aa/bb'c'd&:=7:1}", fault: None },
        Row { web: HELPERS, items: b"{1:beginp(a);p(b);end:1}", fault: None },
        Row { web: b"@ @d ff(#)==gg(#+#)\n@d gg(#)==#*#\n@p ff(k)", items: b"{1:k+k*k+k:1}", fault: None },
        Row { web: b"@ @d ff(#)==#\n@p ff;k", items: b"{1:", fault: Some(ExpandErr::NoParameter) },
        Row { web: b"@ @d ff(#)==#\n@p @<A@>(k)\n@ @<A@>=ff", items: b"{1:{2:", fault: Some(ExpandErr::NoParameter) },
        Row { web: b"@ @p @<Begin@>@<Be...@>\n@ @<Begin@>=x;", items: b"{1:{2:x;:2}{2:x;:2}:1}", fault: None },
        Row { web: b"@ @p @<Initialize@>@<Ini...@>", items: b"{1:", fault: Some(ExpandErr::NotPresent) },
        Row { web: NUMERIC, items: b"{1:x*<-3>;x-<-3>;x:=<124>:1}", fault: None },
    ];
    for (index, row) in rows.iter().enumerate() {
        let web = scan_text(rt.alloc(), row.web, BY_DEFAULT)?;
        let (items, fault) = expanded(rt.alloc(), &web)?;
        assert_eq!(rt; (index, items.bytes()), (index, row.items));
        assert_eq!(rt; (index, fault), (index, row.fault));
    }
    Ok(())
}

// A text of definitions in which each macro of a chain is replaced by the one before, and the first by `x`, and a web
// that uses the one of this number.
fn chain(alloc: Global, used: i64) -> Result<Text, OutOfMemory> {
    let mut text = Text::new(alloc);
    text.push_all(b"@ @d c0==x\n")?;
    let mut before = 0;
    for number in 1..200 {
        push_marked(&mut text, b"@d c", number, b"==c")?;
        push_marked(&mut text, b"", before, b"\n")?;
        before = number;
    }
    push_marked(&mut text, b"@p c", used, b"")?;
    Ok(text)
}

#[test]
fn obeys_the_limit_of_levels(rt: HostRuntime) -> Result<(), Fail> {
    let alloc = rt.alloc();
    let let_through = scan_text(alloc, chain(alloc, 198)?.bytes(), BY_DEFAULT)?;
    let (items, fault) = expanded(alloc, &let_through)?;
    assert_eq!(rt; items.bytes(), b"{1:x:1}".as_slice());
    assert_eq!(rt; fault, None);
    let too_deep = scan_text(alloc, chain(alloc, 199)?.bytes(), BY_DEFAULT)?;
    let mut stream = Stream::new(&too_deep);
    assert!(rt; matches!(stream.next(), Ok(Some(Item::Open(1)))));
    assert!(rt; matches!(stream.next(), Err(ExpandErr::Levels)));
    assert!(rt; matches!(stream.next(), Err(ExpandErr::Levels)));
    Ok(())
}
