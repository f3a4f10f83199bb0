//! Laws of the texts of images, each the contract of a function that does nothing.
ghost use Rattle.std.specs.Prelude.{◌≡◌, ℕ, List};
ghost use Rattle.image_text.specs.Images.{ImageParts, IsImage};
ghost use Rattle.image_text.specs.ImageText.{image_text, IsImageText, IsFirstFault};

/// To print an image and to read the text again gives that image, and to read a text and to print its image gives that text.
pub fn printing_and_reading_are_inverse()
    ensures printed { (image : ImageParts) → IsImage image → IsImageText (image_text image) image }
    ensures read { (image other : ImageParts) → IsImage image → IsImageText (image_text image) other → other ≡ image }
    ensures again { (bytes : List ℕ) (image : ImageParts) → IsImageText bytes image → image_text image ≡ bytes }
{}

/// A text is that of one image at most.
pub fn a_text_has_one_image()
    ensures { (bytes : List ℕ) (a b : ImageParts) → IsImageText bytes a → IsImageText bytes b → b ≡ a }
{}

/// In a text one line at most is the first outside the grammar, and then it is the text of no image.
pub fn a_text_has_one_first_fault()
    ensures one { (bytes : List ℕ) (m n : ℕ) → IsFirstFault bytes m → IsFirstFault bytes n → m ≡ n }
    ensures none { (bytes : List ℕ) (n : ℕ) (image : ImageParts) → IsFirstFault bytes n → ¬ (IsImageText bytes image) }
{}
