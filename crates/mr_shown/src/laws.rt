//! What is known of the texts of data.
ghost use Rattle.std.specs.Prelude.{◌≡◌, ◌≤◌, ℕ, List, length, Some};
ghost use Rattle.std.specs.Str.{chars, encode_utf8_all};
ghost use Rattle.hex.specs.Hex.{IsBytes};
ghost use Rattle.mr_shown.specs.Data.{data_of, shown_data};
ghost use Rattle.mr_shown.specs.Format.{most_data};
ghost use Rattle.mr_shown.specs.declared.format.Format.{Format};

/// The text that shows data stands for it, in either format.
pub fn shown_data_is_read_back()
    ensures { (format : Format) (bytes : List ℕ) → IsBytes bytes → length bytes ≤ most_data format
        → data_of format (chars (encode_utf8_all (shown_data format bytes))) ≡ Some bytes }
{}
