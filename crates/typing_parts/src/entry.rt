use hs_base::Txt;
use hs_items::Items;
use typing_table::ty::TypeTerm;

/// What a name of a scope is.
#[derive(Debug, Drop)]
pub enum Sorted {
    Value(TypeTerm),
    Masking,
}

/// A name of a scope.
#[derive(Debug, Drop)]
pub struct Entry {
    pub text: Txt,
    pub sort: Sorted,
}

/// The head of a definition, with the places of its types, and how many stand before it.
#[derive(Drop)]
pub struct Fun {
    pub text: Txt,
    pub acts: bool,
    pub params: Items<usize>,
    pub result: usize,
    pub place: usize,
}
