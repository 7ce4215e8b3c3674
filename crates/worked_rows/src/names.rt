//! What no clause shows: that the calls find memory, and names beside answers worked out by hand.
use std::test::Fail;
use wb_base::{Case, Options};
use web_names::NameErr::{Ambiguous, Appeared, Before, Conflict, Incompatible, NoMatch};
use web_names::{Class, NameErr, Names, Sections, printed_letter};

// Whether underlines stay, and whether words are compared strictly; the length is 32, and letters stay.
const fn options(underline: bool, strict: bool) -> Options {
    Options {
        length: 32,
        underline,
        case: Case::Mixed,
        strict,
    }
}

// A word that is used where the class is ordinary, and else defined, among the names of the rows before it.
#[derive(Clone, Copy)]
struct Use {
    word: &'static [u8],
    class: Class,
    answer: Result<u32, NameErr>,
}

#[test]
fn keeps_names(rt: HostRuntime) -> Result<(), Fail> {
    #[rattlefmt::skip]
    let rows = [
        Use { word: b"foo_bar", class: Class::Ordinary, answer: Ok(0) },
        Use { word: b"foobar", class: Class::Ordinary, answer: Err(Conflict) },
        Use { word: b"foo_bar", class: Class::Ordinary, answer: Ok(0) },
        Use { word: b"fooBar", class: Class::Ordinary, answer: Ok(1) },
        Use { word: b"foobar", class: Class::Simple, answer: Ok(2) },
        Use { word: b"foobar", class: Class::Ordinary, answer: Ok(2) },
        Use { word: b"foobar", class: Class::Numeric, answer: Err(Before) },
        Use { word: b"foo_bar", class: Class::Numeric, answer: Err(Appeared) },
        Use { word: b"f_oobar", class: Class::Ordinary, answer: Err(Conflict) },
        Use { word: b"foo_bar", class: Class::Parametric, answer: Ok(0) },
        Use { word: b"f_oobar", class: Class::Ordinary, answer: Ok(3) },
        Use { word: b"fo_obar", class: Class::Ordinary, answer: Err(Conflict) },
        Use { word: b"a_", class: Class::Ordinary, answer: Ok(4) },
        Use { word: b"a", class: Class::Ordinary, answer: Ok(5) },
        Use { word: b"a__", class: Class::Ordinary, answer: Err(Conflict) },
    ];
    let mut names = Names::new(rt.alloc(), options(false, false));
    for (index, row) in rows.iter().enumerate() {
        let answer = match row.class {
            Class::Ordinary => names.intern(row.word),
            class => names.define(row.word, class),
        };
        assert_eq!(rt; (index, answer), (index, row.answer));
    }
    Ok(())
}

#[test]
fn tells_names(rt: HostRuntime) -> Result<(), Fail> {
    let mut names = Names::new(rt.alloc(), options(true, true));
    assert_eq!(rt; names.intern(b"foo_bar"), Ok(0));
    assert_eq!(rt; names.intern(b"FooBar"), Err(Conflict));
    let word = [b'_'; 60];
    let id = names.define(&word, Class::Numeric)?;
    names.set(id, -7);
    assert_eq!(rt; names.kind(id), (Class::Numeric, -7));
    assert_eq!(rt; names.printed(id), &word[..50]);
    assert_eq!(rt; printed_letter(b'a', &options(true, true)), b'a');
    Ok(())
}

// A whole name or a prefix, among the names of the rows before it.
#[derive(Clone, Copy)]
struct Section {
    name: &'static [u8],
    is_prefix: bool,
    answer: Result<u32, NameErr>,
}

#[test]
fn keeps_sections(rt: HostRuntime) -> Result<(), Fail> {
    #[rattlefmt::skip]
    let rows = [
        Section { name: b"Ini", is_prefix: true, answer: Err(NoMatch) },
        Section { name: b"Ink", is_prefix: false, answer: Ok(0) },
        Section { name: b"Initialize", is_prefix: false, answer: Ok(1) },
        Section { name: b"Ink", is_prefix: false, answer: Ok(0) },
        Section { name: b"Ini", is_prefix: true, answer: Ok(1) },
        Section { name: b"Ink", is_prefix: true, answer: Ok(0) },
        Section { name: b"In", is_prefix: true, answer: Err(Ambiguous) },
        Section { name: b"Ini ", is_prefix: true, answer: Err(NoMatch) },
        Section { name: b"Ini", is_prefix: false, answer: Err(Incompatible) },
        Section { name: b"Inks", is_prefix: false, answer: Err(Incompatible) },
        Section { name: b"Import", is_prefix: false, answer: Ok(2) },
        Section { name: b"I", is_prefix: true, answer: Err(Ambiguous) },
        Section { name: b"Im", is_prefix: true, answer: Ok(2) },
        Section { name: b"X", is_prefix: true, answer: Err(NoMatch) },
    ];
    let mut sections = Sections::new(rt.alloc());
    for (index, row) in rows.iter().enumerate() {
        let answer = if row.is_prefix {
            sections.prefix(row.name)
        } else {
            sections.whole(row.name)
        };
        assert_eq!(rt; (index, answer), (index, row.answer));
    }
    Ok(())
}
