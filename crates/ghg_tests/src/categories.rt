//! The tree of categories, its order and its memo codes.

use crate::cases::check;
use ghg_categories::{
    Category, all, code, codes_are_ordered, each_code_names_itself, is_leaf, is_under, named,
    parent, under_is_by_parents,
};

// A code, that of its parent, and whether it is a leaf; no text stands for no parent.
const CODES: &[(&str, &str, bool)] = &[
    ("0", "", false),
    ("1", "0", false),
    ("5", "0", false),
    ("1A", "1", false),
    ("1A1", "1A", false),
    ("1A1a", "1A1", true),
    ("1A2", "1A", true),
    ("1A4c", "1A4", true),
    ("1B3", "1B", true),
    ("1C", "1", true),
    ("2C3", "2C", true),
    ("3B", "3", false),
    ("3B6", "3B", true),
    ("3C8", "3C", true),
    ("4D", "4", false),
    ("4E", "4", true),
    ("5B", "5", true),
    ("MB", "", true),
    ("MC", "", true),
    ("RA", "", true),
];

// What is no code.
const OTHERS: &[&str] = &[
    "", "00", "6", "1D", "1.A", "1a", "1A1A", "1A1d", "1A10", "1A2a", "1A1a ", " 1A", "2B4", "2C2",
    "2E", "3B7", "M", "mb", "MBC", "gross",
];

fn is_as_printed(text: &str, above: &str, leaf: bool) -> bool {
    match named(text.as_bytes()) {
        Some(category) => {
            code(category) == text
                && parent(category) == named(above.as_bytes())
                && is_leaf(category) == leaf
        }
        None => false,
    }
}

#[test]
fn codes_name_categories_that_have_parents(rt: HostRuntime) {
    each_code_names_itself();
    for (text, above, leaf) in CODES {
        check(&rt, is_as_printed(text, above, *leaf), text);
    }
    for text in OTHERS {
        check(&rt, named(text.as_bytes()).is_none(), text);
    }
}

// A code, another one, and whether the first is under the second.
const PLACES: &[(&str, &str, bool)] = &[
    ("1A1", "1A1", true),
    ("1A1", "1A", true),
    ("1A1", "1", true),
    ("1A1", "0", true),
    ("1A1", "1A2", false),
    ("1A1", "1A1a", false),
    ("1A1a", "0", true),
    ("0", "0", true),
    ("0", "1", false),
    ("1", "2", false),
    ("3B1", "3B", true),
    ("3C1", "3B", false),
    ("4C2", "4C1", false),
    ("MB", "MB", true),
    ("MB", "0", false),
    ("MB", "MC", false),
    ("RA", "1A", false),
    ("0", "RA", false),
];

fn stands(text: &str, top: &str, want: bool) -> bool {
    match (named(text.as_bytes()), named(top.as_bytes())) {
        (Some(category), Some(above)) => is_under(category, above) == want,
        _ => false,
    }
}

#[test]
fn categories_stand_under_each_one_above_them(rt: HostRuntime) {
    under_is_by_parents();
    for (text, top, want) in PLACES {
        check(&rt, stands(text, top, *want), text);
    }
}

#[test]
fn the_tree_is_listed_by_the_bytes_of_its_codes(rt: HostRuntime) {
    codes_are_ordered();
    let mut last = "";
    for category in all() {
        let code = code(*category);
        check(&rt, last.as_bytes() < code.as_bytes(), code);
        last = code;
    }
    check(&rt, all().len() == 76 && last == "5B", "the tree");
    let leaves = all().iter().filter(|category| is_leaf(**category)).count();
    check(&rt, leaves == 55, "leaves");
}

// Categories in no order, and their codes in the order of their bytes.
const UNSORTED: [Category; 8] = [
    Category::RA,
    Category::C5B,
    Category::C1B,
    Category::MB,
    Category::C1A1a,
    Category::C2,
    Category::National,
    Category::C1A1,
];

const SORTED: &[&str] = &["0", "1A1", "1A1a", "1B", "2", "5B", "MB", "RA"];

#[test]
fn categories_are_sorted_by_the_bytes_of_their_codes(rt: HostRuntime) {
    let mut categories = Vec::from_slice(rt.alloc(), &UNSORTED)
        .ok()
        .expect(&rt, "memory");
    check(&rt, categories.sort().is_ok(), "memory");
    for (category, want) in categories.iter().zip(SORTED.iter()) {
        check(&rt, code(*category) == *want, want);
    }
    check(&rt, Category::C1A1 != Category::C1A1a, "two categories");
}
