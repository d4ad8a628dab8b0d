// Which label sets rows have.
ghost use Rattle.std.specs.Prelude.{◌≡◌, ◌++◌, List, [], IfOk, OnErr, OnOk, map};
ghost use Rattle.profile_model.specs.declared.profile.Profile.{Profile};
ghost use Rattle.label_queries.specs.Labels.{label_names_of, label_sets_of, label_values_of, series_of};
ghost use Rattle.query_merge.specs.Rows.{profiles_of};
ghost use Rattle.query_merge.specs.SetLists.{AreSetsOf};

use label_queries::LabelSets;
use profile_model::{LabelSet, Name};
use segment_file::{Part, Row};
use selector::Selector;
use std::alloc::{AllocError, Global};
use std::marker::Model;

/// Selectors, and the distinct label sets of the rows that were added and that any of them matches; of all rows where
/// there are no selectors. A set has the two labels that tell the profile's type.
#[derive(Drop)]
pub struct LabelLists {
    lists: LabelSets,
}

impl Model for LabelLists {
    ghost use Rattle.label_queries.specs.Gathered.{Gathered};

    ghost Value = { Gathered };

    ghost view = { λ l. l.lists };
}

impl LabelLists {
    /// No row was added. It takes no memory.
    pub fn new(alloc: Global, matchers: Vec<Selector>) -> LabelLists
        ensures selectors { result.selectors ≡ matchers.items }
        ensures none { AreSetsOf result [] }
    {
        LabelLists {
            lists: LabelSets::new(alloc, matchers),
        }
    }

    /// Adds the part's rows. Want of memory leaves all as it was.
    pub fn add(&mut self, part: &Part) -> Result<(), AllocError>
        ensures more { (profiles : List Profile) → AreSetsOf self.old profiles → OnOk result (AreSetsOf self.new (profiles ++ profiles_of part.now.rows)) }
        ensures selectors { self.new.selectors ≡ self.old.selectors }
        ensures err { OnErr result (self.new ≡ self.old) }
    {
        let before = self.lists.sets().clone()?;
        match add_rows(&mut self.lists, &part.rows) {
            Ok(()) => Ok(()),
            Err(refused) => {
                self.lists.put_back(before);
                Err(refused)
            }
        }
    }

    /// The names of labels that any of the sets has, ascending.
    pub fn names(&self) -> Result<Vec<Name>, AllocError>
        ensures { (profiles : List Profile) → AreSetsOf self.now profiles
            → IfOk result (λ names. names.items ≡ label_names_of (label_sets_of self.now.selectors profiles)) }
    {
        self.lists.names()
    }

    /// The values of a label in the sets that have it, ascending.
    pub fn values(&self, name: &str) -> Result<Vec<Name>, AllocError>
        ensures { (profiles : List Profile) → AreSetsOf self.now profiles
            → IfOk result (λ values. values.items ≡ label_values_of name.now (label_sets_of self.now.selectors profiles)) }
    {
        self.lists.values(name)
    }

    /// The sets cut to these names, ascending; whole sets where there are no names.
    pub fn series(&self, names: &[&str]) -> Result<Vec<Vec<(Name, Name)>>, AllocError>
        ensures { (profiles : List Profile) → AreSetsOf self.now profiles
            → IfOk result (λ series. map (λ set. set.items) series.items
            ≡ series_of (map (λ name. name.now) names.now) (label_sets_of self.now.selectors profiles)) }
    {
        self.lists.series(names)
    }

    /// The sets, ascending, none twice.
    pub fn sets(self) -> Result<Vec<LabelSet>, AllocError>
        ensures { (profiles : List Profile) → AreSetsOf self profiles → IfOk result (λ sets. sets.items ≡ label_sets_of self.selectors profiles) }
    {
        self.lists.list()
    }
}

// Want of memory may leave some of the rows added.
fn add_rows(lists: &mut LabelSets, rows: &[Row]) -> Result<(), AllocError>
    ensures more { (profiles : List Profile) → AreSetsOf lists.old profiles → OnOk result (AreSetsOf lists.new (profiles ++ profiles_of rows.now)) }
    ensures selectors { lists.new.selectors ≡ lists.old.selectors }
{
    for row in rows {
        lists.add(&row.profile)?;
    }
    Ok(())
}
