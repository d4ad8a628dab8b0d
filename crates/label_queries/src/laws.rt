// What the lists are, whatever the order in which they were gathered.
ghost use Rattle.std.specs.Prelude.{◌≡◌, ◌++◌, [], ◌∷◌, List, ℕ};
ghost use Rattle.profile_model.specs.LabelOrder.{labels_cmp};
ghost use Rattle.profile_model.specs.LabelSets.{Label};
ghost use Rattle.profile_model.specs.Stacks.{name_cmp};
ghost use Rattle.profile_model.specs.declared.profile.Profile.{Profile};
ghost use Rattle.selector.specs.Matching.{Matching};
ghost use Rattle.label_queries.specs.Gathered.{with_profile};
ghost use Rattle.label_queries.specs.Labels.{label_sets_of};
ghost use Rattle.label_queries.specs.Ordered.{AreMembersOf, ascending};

/// Texts and label sets that are listed ascend, so none comes twice, and they are those that there were.
/// It does nothing: its clauses are the law.
pub fn each_member_once()
    ensures texts { (texts : List (List ℕ)) → AreMembersOf name_cmp texts (ascending name_cmp texts) }
    ensures sets { (sets : List (List Label)) → AreMembersOf labels_cmp sets (ascending labels_cmp sets) }
{}

/// One profile more makes of the sets of some profiles the sets of all of these.
/// It does nothing: its clause is the law.
pub fn sets_of_more_profiles()
    ensures { (selectors : List (List Matching)) (profiles : List Profile) (profile : Profile)
        → with_profile (record { selectors = selectors; sets = label_sets_of selectors profiles }) profile
        ≡ record { selectors = selectors; sets = label_sets_of selectors (profiles ++ profile ∷ []) } }
{}
