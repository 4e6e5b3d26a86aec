//! What is known of the texts of labels.
ghost use Rattle.std.specs.Prelude.{◌≡◌, ◌++◌, ◌∷◌, ℕ, List, false, Some};
ghost use Rattle.mr_metrics.specs.Exposition.{escaped};
ghost use Rattle.mr_metrics.specs.ReadBack.{read_value};

/// A label's value is read back as it was, whatever it is and whatever follows its closing quote.
pub fn labels_are_read_back()
    ensures { (value rest : List ℕ) → read_value false (escaped value ++ 34 ∷ rest) ≡ Some (value, rest) }
{}
