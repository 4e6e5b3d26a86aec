//! What is known of the texts of pictures.
ghost use Rattle.std.specs.Prelude.{◌≡◌, ◌<◌, ℕ, List, All};
ghost use Rattle.mr_drawing.specs.Escape.{shown, read_back};

/// What is shown of bytes is read back as they are.
pub fn shown_bytes_are_read_back()
    ensures { (bytes : List ℕ) → All (λ byte. byte < 256) bytes → read_back (shown bytes) ≡ bytes }
{}
