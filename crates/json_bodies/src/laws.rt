// What an object is read to and its faults exclude each other.
ghost use Rattle.std.specs.Prelude.{◌≡◌, ℕ, None};
ghost use Rattle.serde_json.specs.Data.{Data};
ghost use Rattle.json_bodies.specs.FieldFaults.{IsFirstWrong};
ghost use Rattle.json_bodies.specs.PushFaults.{IsShapeFault};
ghost use Rattle.json_bodies.specs.Pushes.{push_in};
ghost use Rattle.json_bodies.specs.Queries.{IsLabelNames, IsLabelValues, IsSeries, label_names_kinds, label_values_kinds, series_kinds};
ghost use Rattle.json_bodies.specs.declared.fields.FieldFault.TheVariants.{WrongKind};
ghost use Rattle.json_bodies.specs.declared.push.ShapeFault.TheVariants.{Wrong};
ghost use Rattle.json_bodies.specs.declared.queries.LabelNamesBody.{LabelNamesBody};
ghost use Rattle.json_bodies.specs.declared.queries.LabelValuesBody.{LabelValuesBody};
ghost use Rattle.json_bodies.specs.declared.queries.SeriesBody.{SeriesBody};

/// An object that has a field of a wrong kind is no query, and one that has another shape is no push: so each fault comes
/// exactly where its clause says. It does nothing: its clauses are the law.
pub fn faults_exclude_bodies()
    ensures names { (value : Data) (body : LabelNamesBody) (at : ℕ) → IsLabelNames value body
        → ¬ (IsFirstWrong (label_names_kinds value) (WrongKind at)) }
    ensures values { (value : Data) (body : LabelValuesBody) (at : ℕ) → IsLabelValues value body
        → ¬ (IsFirstWrong (label_values_kinds value) (WrongKind at)) }
    ensures series { (value : Data) (body : SeriesBody) (at : ℕ) → IsSeries value body
        → ¬ (IsFirstWrong (series_kinds value) (WrongKind at)) }
    ensures push { (value : Data) (series sample : ℕ) → IsShapeFault value (Wrong series sample) → push_in value ≡ None }
{}
