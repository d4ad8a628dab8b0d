// The query methods that list labels.

/// What a query for labels lists.
#[derive(Clone, Copy, Debug, PartialEq, Eq)]
pub enum LabelMethod {
    Names,
    Values,
    Series,
}
