//! Laws of images, each the contract of a function that does nothing.
ghost use Rattle.std.specs.Prelude.{◌≡◌, false, All, List, ℕ};
ghost use Rattle.corten_base.specs.declared.calls.Entry.{Entry};
ghost use Rattle.corten_base.specs.declared.numbers.Limits.{Limits};
ghost use Rattle.page_map.specs.Cell.{AddressSpace};
ghost use Rattle.page_map.specs.History.{IsHistory, after};
ghost use Rattle.page_map.specs.Memory.{is_refusal};
ghost use Rattle.page_map.specs.State.{space_at, start};
ghost use Rattle.mm_script.specs.CallLine.{IsWithin};
ghost use Rattle.mm_script.specs.ScriptText.{AreFiles, AreLimits};
ghost use Rattle.history_lines.specs.HistoryText.{IsAsked};
ghost use Rattle.image_text.specs.Items.{AreEqualButForNumbers, cells_of};
ghost use Rattle.image_text.specs.Images.{ImageParts, IsImage, IsImageOf};
ghost use Rattle.image_text.specs.ImageText.{image_text};
ghost use Rattle.space_image.specs.Calls.{calls_of, replies_of};
ghost use Rattle.space_image.specs.Restoring.{left_at_start};
ghost use Rattle.space_image.specs.Saving.{HasImage, HasImageText, IsSaved};

/// A map has one image, and so one text.
pub fn a_map_has_one_image()
    ensures { (limits : Limits) (files : List (List ℕ)) (cells : AddressSpace) (a b : ImageParts)
        → IsImageOf limits files cells a → IsImageOf limits files cells b → a ≡ b }
{}

/// None of the calls of an image is refused, and they leave its map but for numbers.
pub fn an_image_is_restored()
    ensures accepted { (image : ImageParts) → IsImage image → All (λ r. is_refusal r ≡ false)
        (replies_of (start image.limits image.files) (calls_of image.items)) }
    ensures map { (image : ImageParts) → IsImage image
        → AreEqualButForNumbers (cells_of image.items) (space_at (left_at_start image) 0) }
{}

/// What an image is restored to has its text.
pub fn an_image_is_saved_again()
    ensures { (image again : ImageParts) → IsImage image
        → IsImageOf image.limits image.files (space_at (left_at_start image) 0) again
        → image_text again ≡ image_text image }
{}

/// What is saved of a space that a legal history leaves is the text of an image, so it can be read and restored.
pub fn what_is_saved_can_be_restored()
    ensures { (limits : Limits) (files : List (List ℕ)) (es : List Entry) (space : ℕ) (bytes : List ℕ)
        → AreLimits limits → IsWithin 4 5 limits.levels → AreFiles files
        → All IsAsked es → IsHistory limits files es
        → HasImage (after (start limits files) es) space
        → IsSaved (after (start limits files) es) space bytes
        → HasImageText limits files (space_at (after (start limits files) es) space) bytes }
{}
