// Names and lists of names on worked values. A case is a text, and a helper says of it what it shows.
use crate::{Name, NameFault, Names, are_too_many};
use std::alloc::Global;
use std::process::Abort;

// Texts that are names.
const NAMES: &str =
    "i _ x_1 keeps abcdefghijklmnopqrstuvwxyz_ABCDEFGHIJKLMNOPQRSTUVWXYZ_0123456789";

// Texts that are none, behind commas but the first, which is empty.
const OTHERS: &str =
    ",keep,1x,a-b,a b,abcdefghijklmnopqrstuvwxyz_ABCDEFGHIJKLMNOPQRSTUVWXYZ_0123456789_";

fn is_kept(alloc: Global, text: &str) -> bool {
    match Name::read(alloc, text.as_bytes()) {
        Ok(name) => name.bytes() == text.as_bytes(),
        Err(_) => false,
    }
}

fn is_bad(alloc: Global, text: &str) -> bool {
    Name::read(alloc, text.as_bytes()).err() == Some(NameFault::Bad)
}

#[test]
fn a_name_begins_with_a_letter_and_is_not_keep(rt: HostRuntime) {
    for text in NAMES.split(' ') {
        assert!(rt; is_kept(rt.alloc(), text), "{text}");
    }
    for text in OTHERS.split(',') {
        assert!(rt; is_bad(rt.alloc(), text), "{text}");
    }
}

fn name_of(rt: &impl Abort, alloc: Global, text: &str) -> Name {
    Name::read(alloc, text.as_bytes()).expect(rt, "a name")
}

// What the list answers to a name that is added.
fn added(rt: &impl Abort, alloc: Global, names: &mut Names, text: &str) -> Result<u32, NameFault> {
    names.add(name_of(rt, alloc, text))
}

// The list of the names in a text, each behind a space.
fn names_of(rt: &impl Abort, alloc: Global, text: &str) -> Names {
    let mut names = Names::new(alloc);
    for word in text.split_whitespace() {
        added(rt, alloc, &mut names, word).expect(rt, "a new name");
    }
    names
}

fn assert_names(rt: &impl Abort, names: &Names, wanted: &str) {
    let mut place = 0;
    for word in wanted.split_whitespace() {
        assert!(rt; place < names.len());
        assert_eq!(rt; names.at(place).bytes(), word.as_bytes());
        place += 1;
    }
    assert_eq!(rt; names.len(), place);
}

fn assert_list(rt: &impl Abort, names: Result<Names, NameFault>, wanted: &str) {
    assert_names(rt, &names.expect(rt, wanted), wanted);
}

fn place_of(rt: &impl Abort, alloc: Global, names: &Names, text: &str) -> Option<u32> {
    names.place(&name_of(rt, alloc, text))
}

fn is_copied(rt: &impl Abort, alloc: Global, text: &str) -> bool {
    let name = name_of(rt, alloc, text);
    name.copy(alloc).expect(rt, "memory") == name
}

#[test]
fn a_list_gives_places_in_the_order_of_addition(rt: HostRuntime) {
    let mut names = names_of(&rt, rt.alloc(), "i p o");
    assert_eq!(rt; place_of(&rt, rt.alloc(), &names, "p"), Some(1));
    assert_eq!(rt; place_of(&rt, rt.alloc(), &names, "q"), None);
    assert_eq!(rt;
        added(&rt, rt.alloc(), &mut names, "p"),
        Err(NameFault::Taken)
    );
    assert_names(&rt, &names, "i p o");
    assert_eq!(rt; added(&rt, rt.alloc(), &mut names, "q"), Ok(3));
    assert_list(&rt, names.copy(), "i p o q");
    assert!(rt; is_copied(&rt, rt.alloc(), "p"));
}

// Two lists, their union, and the first without the second.
const PAIRS: &str = "i p|o p a i|i p o a|
    o p a i|i p|o p a i|o a
    o p a i|i x p|o p a i x|o a
    |o i|o i|
    o i||o i|o i";

fn assert_pair(rt: &impl Abort, alloc: Global, line: &str) {
    let mut parts = line.split('|');
    let first = names_of(rt, alloc, parts.next().unwrap_or(""));
    let second = names_of(rt, alloc, parts.next().unwrap_or(""));
    assert_list(rt, first.union(&second), parts.next().unwrap_or("no union"));
    assert_list(
        rt,
        first.without(&second),
        parts.next().unwrap_or("no rest"),
    );
}

#[test]
fn lists_are_joined_and_cut_in_order(rt: HostRuntime) {
    for line in PAIRS.lines() {
        assert_pair(&rt, rt.alloc(), line);
    }
}

// The list `x y` with another name in place of one.
#[tactic(auto, using(crate::proofs::Renamings::one_pair))]
fn renamed(rt: &impl Abort, alloc: Global, old: &str, new: &str) -> Result<Names, NameFault> {
    let names = names_of(rt, alloc, "x y");
    let pair = (name_of(rt, alloc, old), name_of(rt, alloc, new));
    names.rename(&Vec::from_array(alloc, [pair]).expect(rt, "memory"))
}

#[test]
fn a_name_is_renamed_in_its_place(rt: HostRuntime) {
    assert_list(&rt, renamed(&rt, rt.alloc(), "x", "u"), "u y");
    assert_list(&rt, renamed(&rt, rt.alloc(), "y", "u"), "x u");
    assert_list(&rt, renamed(&rt, rt.alloc(), "x", "x"), "x y");
    assert_eq!(rt;
        renamed(&rt, rt.alloc(), "x", "y").err(),
        Some(NameFault::Taken)
    );
}

// The names `n0`, `n1` and so on, as many as a list holds.
fn full_list(rt: &impl Abort, alloc: Global) -> Names {
    let mut names = Names::new(alloc);
    for number in 0..Names::MOST {
        let text = format!(in alloc; "n{number}").expect(rt, "memory");
        added(rt, alloc, &mut names, text.as_str()).expect(rt, "a new name");
    }
    names
}

// How long the union with the names in a text is.
fn union_len(rt: &impl Abort, alloc: Global, names: &Names, text: &str) -> Result<u32, NameFault> {
    let union = names.union(&names_of(rt, alloc, text))?;
    Ok(union.len())
}

#[test]
fn a_list_holds_4096_names(rt: HostRuntime) {
    let mut names = full_list(&rt, rt.alloc());
    assert_eq!(rt; names.len(), 4096);
    assert_eq!(rt;
        added(&rt, rt.alloc(), &mut names, "n7"),
        Err(NameFault::Taken)
    );
    assert_eq!(rt;
        added(&rt, rt.alloc(), &mut names, "m"),
        Err(NameFault::Limit)
    );
    assert_eq!(rt;
        union_len(&rt, rt.alloc(), &names, "n8 m"),
        Err(NameFault::Limit)
    );
    assert_eq!(rt; union_len(&rt, rt.alloc(), &names, "n8"), Ok(4096));
}

#[test]
fn an_operation_has_at_most_128_ports(rt: HostRuntime) {
    assert!(rt; !are_too_many(128) && are_too_many(129));
}
