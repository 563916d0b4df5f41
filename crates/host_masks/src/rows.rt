//! Worked examples, which the definitions compute.
ghost use Rattle.std.specs.Prelude.{◌≡◌, ◌++◌, [], false, true, take};
ghost use Rattle.run_model.specs.controller_model.Rows.{mask_octets};
ghost use Rattle.run_model.specs.Rows.{reset};
ghost use Rattle.host_masks.specs.Masks.{first_masks, masks_of, withholds_requests};
ghost use Rattle.host_masks.specs.Rows.{le_mask_octets, masking_octets, short_octets};

/// Set Event Mask and LE Set Event Mask set one mask each, once they are whole, and a Reset sets both
/// to their defaults.
pub fn worked_masks()
    ensures first { masks_of [] ≡ first_masks }
    ensures events { masks_of mask_octets
        ≡ record first_masks { mask = 0x20001FFFFFFFFFFF } }
    ensures le_events { masks_of le_mask_octets ≡ record first_masks { le_mask = 0x3F } }
    ensures both { masks_of masking_octets
        ≡ record { mask = 0x20001FFFFFFFFFFF; le_mask = 0x3F } }
    ensures part { masks_of (take 11 le_mask_octets) ≡ first_masks }
    ensures reset { masks_of (masking_octets ++ reset) ≡ first_masks }
    ensures short { masks_of short_octets ≡ first_masks }
{}

/// The event of a request passes where the host has set both bits for it, and by the defaults
/// neither is set.
pub fn worked_withholding()
    ensures first { withholds_requests first_masks ≡ true }
    ensures events { withholds_requests (masks_of mask_octets) ≡ true }
    ensures le_events { withholds_requests (masks_of le_mask_octets) ≡ true }
    ensures both { withholds_requests (masks_of masking_octets) ≡ false }
    ensures reset { withholds_requests (masks_of (masking_octets ++ reset)) ≡ true }
{}

/// No mask keeps its value through a Reset, and a command of the wrong length sets none.
pub fn wrong_masks()
    ensures events { (masks_of (masking_octets ++ reset)).mask ≡ (masks_of masking_octets).mask
        → ⊥ }
    ensures le_events { (masks_of (masking_octets ++ reset)).le_mask
        ≡ (masks_of masking_octets).le_mask → ⊥ }
    ensures short { (masks_of short_octets).le_mask ≡ (masks_of le_mask_octets).le_mask → ⊥ }
{}
