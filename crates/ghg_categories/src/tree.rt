//! The table of categories: their codes, and how they stand under one another.
//!
//! Source: 2006 IPCC Guidelines, Volume 1, Chapter 8, Table 8.2. The code `0` and the memo codes are this
//! project's own.

ghost use Rattle.std.specs.Prelude.{◌≡◌};
ghost use Rattle.std.specs.Str.{bytes_eq};
ghost use Rattle.ghg_categories.specs.Tree.{code_of, parent_of, named_in, is_leaf_of, tree, stands_under, stands_within};

use crate::category::Category;

/// The depth of the tree: its levels below the national total, as those of 1, 1A, 1A1 and 1A1a.
pub const DEPTH: u8 = 4;

/// The category that a text is the code of; `None` exactly where it is no code. Memo codes are named too.
#[tactic(auto, unfolding(crate::specs::Tree::named_in))]
pub fn named(text: &[u8]) -> Option<Category>
    ensures { result ≡ named_in text.now }
{
    Category::TREE
        .iter()
        .chain(Category::MEMO.iter())
        .copied()
        .find(|category| has_code(*category, text))
}

fn has_code(category: Category, text: &[u8]) -> bool
    ensures { result ≡ bytes_eq (code_of category) text.now }
{
    code(category).as_bytes() == text
}

/// Each category of the tree, the national total included, in the order of the codes' bytes. There are 76.
pub fn all() -> &'static [Category]
    ensures { result.now ≡ tree }
{
    &Category::TREE
}

/// Whether `top` is the category itself or stands above it.
#[tactic(auto, unfolding(crate::specs::Tree::stands_under))]
pub fn is_under(category: Category, top: Category) -> bool
    ensures { result ≡ stands_under category top }
{
    stands_within_levels(DEPTH, category, top)
}

// Whether `top` is the category itself or stands above it by no more than so many levels.
fn stands_within_levels(levels: u8, category: Category, top: Category) -> bool
    ensures { result ≡ stands_within levels category top }
{
    if category == top {
        return true;
    }
    if levels == 0 {
        return false;
    }
    match parent(category) {
        Some(above) => stands_within_levels(levels - 1, above, top),
        None => false,
    }
}

// What the table says of a category: its code, the category just above, and whether none stands just under
// it.
#[derive(Clone, Copy)]
struct CategoryRow {
    code: &'static str,
    parent: Option<Category>,
    is_leaf: bool,
}

macro_rules! row {
    (branch $code:literal) => { row!($code, None, false) };
    (leaf $code:literal) => { row!($code, None, true) };
    (branch $code:literal under $parent:ident) => { row!($code, Some(Category::$parent), false) };
    (leaf $code:literal under $parent:ident) => { row!($code, Some(Category::$parent), true) };
    ($code:literal, $parent:expr, $is_leaf:literal) => {
        CategoryRow { code: $code, parent: $parent, is_leaf: $is_leaf }
    };
}

// The row of a category.
fn row(category: Category) -> CategoryRow
    ensures code { result.code.now ≡ code_of category }
    ensures parent { result.parent ≡ parent_of category }
    ensures is_leaf { result.is_leaf ≡ is_leaf_of category }
{
    match category {
        Category::National => row!(branch "0"),
        Category::C1 => row!(branch "1" under National),
        Category::C1A => row!(branch "1A" under C1),
        Category::C1A1 => row!(branch "1A1" under C1A),
        Category::C1A1a => row!(leaf "1A1a" under C1A1),
        Category::C1A1b => row!(leaf "1A1b" under C1A1),
        Category::C1A1c => row!(leaf "1A1c" under C1A1),
        Category::C1A2 => row!(leaf "1A2" under C1A),
        Category::C1A3 => row!(branch "1A3" under C1A),
        Category::C1A3a => row!(leaf "1A3a" under C1A3),
        Category::C1A3b => row!(leaf "1A3b" under C1A3),
        Category::C1A3c => row!(leaf "1A3c" under C1A3),
        Category::C1A3d => row!(leaf "1A3d" under C1A3),
        Category::C1A3e => row!(leaf "1A3e" under C1A3),
        Category::C1A4 => row!(branch "1A4" under C1A),
        Category::C1A4a => row!(leaf "1A4a" under C1A4),
        Category::C1A4b => row!(leaf "1A4b" under C1A4),
        Category::C1A4c => row!(leaf "1A4c" under C1A4),
        Category::C1A5 => row!(leaf "1A5" under C1A),
        Category::C1B => row!(branch "1B" under C1),
        Category::C1B1 => row!(leaf "1B1" under C1B),
        Category::C1B2 => row!(leaf "1B2" under C1B),
        Category::C1B3 => row!(leaf "1B3" under C1B),
        Category::C1C => row!(leaf "1C" under C1),
        Category::C2 => row!(branch "2" under National),
        Category::C2A => row!(branch "2A" under C2),
        Category::C2A1 => row!(leaf "2A1" under C2A),
        Category::C2A2 => row!(leaf "2A2" under C2A),
        Category::C2A3 => row!(leaf "2A3" under C2A),
        Category::C2A4 => row!(leaf "2A4" under C2A),
        Category::C2B => row!(branch "2B" under C2),
        Category::C2B1 => row!(leaf "2B1" under C2B),
        Category::C2B2 => row!(leaf "2B2" under C2B),
        Category::C2B3 => row!(leaf "2B3" under C2B),
        Category::C2C => row!(branch "2C" under C2),
        Category::C2C1 => row!(leaf "2C1" under C2C),
        Category::C2C3 => row!(leaf "2C3" under C2C),
        Category::C2D => row!(branch "2D" under C2),
        Category::C2D1 => row!(leaf "2D1" under C2D),
        Category::C2D2 => row!(leaf "2D2" under C2D),
        Category::C3 => row!(branch "3" under National),
        Category::C3A => row!(branch "3A" under C3),
        Category::C3A1 => row!(leaf "3A1" under C3A),
        Category::C3A2 => row!(leaf "3A2" under C3A),
        Category::C3B => row!(branch "3B" under C3),
        Category::C3B1 => row!(leaf "3B1" under C3B),
        Category::C3B2 => row!(leaf "3B2" under C3B),
        Category::C3B3 => row!(leaf "3B3" under C3B),
        Category::C3B4 => row!(leaf "3B4" under C3B),
        Category::C3B5 => row!(leaf "3B5" under C3B),
        Category::C3B6 => row!(leaf "3B6" under C3B),
        Category::C3C => row!(branch "3C" under C3),
        Category::C3C1 => row!(leaf "3C1" under C3C),
        Category::C3C2 => row!(leaf "3C2" under C3C),
        Category::C3C3 => row!(leaf "3C3" under C3C),
        Category::C3C4 => row!(leaf "3C4" under C3C),
        Category::C3C5 => row!(leaf "3C5" under C3C),
        Category::C3C6 => row!(leaf "3C6" under C3C),
        Category::C3C7 => row!(leaf "3C7" under C3C),
        Category::C3C8 => row!(leaf "3C8" under C3C),
        Category::C3D => row!(branch "3D" under C3),
        Category::C3D1 => row!(leaf "3D1" under C3D),
        Category::C3D2 => row!(leaf "3D2" under C3D),
        Category::C4 => row!(branch "4" under National),
        Category::C4A => row!(leaf "4A" under C4),
        Category::C4B => row!(leaf "4B" under C4),
        Category::C4C => row!(branch "4C" under C4),
        Category::C4C1 => row!(leaf "4C1" under C4C),
        Category::C4C2 => row!(leaf "4C2" under C4C),
        Category::C4D => row!(branch "4D" under C4),
        Category::C4D1 => row!(leaf "4D1" under C4D),
        Category::C4D2 => row!(leaf "4D2" under C4D),
        Category::C4E => row!(leaf "4E" under C4),
        Category::C5 => row!(branch "5" under National),
        Category::C5A => row!(leaf "5A" under C5),
        Category::C5B => row!(leaf "5B" under C5),
        Category::MB => row!(leaf "MB"),
        Category::MC => row!(leaf "MC"),
        Category::RA => row!(leaf "RA"),
    }
}

/// Whether no category has it as its parent. Memo codes are leaves too; lines stand at leaves alone.
pub fn is_leaf(category: Category) -> bool
    ensures { result ≡ is_leaf_of category }
{
    row(category).is_leaf
}

/// The category just above; `None` for the national total and the memo codes.
pub fn parent(category: Category) -> Option<Category>
    ensures { result ≡ parent_of category }
{
    row(category).parent
}

/// The code as submissions and tables write it.
pub fn code(category: Category) -> &'static str
    ensures { result.now ≡ code_of category }
{
    row(category).code
}
