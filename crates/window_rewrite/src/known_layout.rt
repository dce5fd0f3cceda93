//! The layout of the lines that are rewritten. None is kept of a steady listing, since each listing that replacements make of it can be laid out.

use kept_layout::{KeptLayout, Move};
use listing_parser::{Listing, Memory};
use std::alloc::Global;
use thumb_instr::Instr;

/// What is known of the layout of the lines that are rewritten.
#[derive(Drop)]
pub(crate) struct KnownLayout {
    /// The layout of the lines, where it has to be asked for each replacement; None where they are steady.
    pub(crate) kept: Option<KeptLayout>,
}

impl KnownLayout {
    ghost use Rattle.std.specs.Prelude.{◌≡◌, ℕ, length, List, IfOk, OnOk, IfSome};
    ghost use Rattle.thumb_model.specs.Layout.{Layable};
    ghost use Rattle.thumb_model.specs.Listing.{ListingLine as Listed};
    ghost use Rattle.thumb_model.specs.Replaced.{replaced_lines};
    ghost use Rattle.listing_parser.specs.Parsing.{own_line};
    ghost use Rattle.kept_layout.specs.Kept.{IsLaid};
    ghost use Rattle.window_rewrite.specs.Layouts.{is_steady, Allows, HasLayout, StandsNear};
    ghost use Rattle.thumb_model.specs.Replaced.{IsWindow};

    /// The layout of a listing that can be laid out from the base, kept unless `steady`. It is positioned at the first place.
    pub(crate) fn of(
        alloc: Global,
        listing: &Listing,
        base: u32,
        steady: bool,
    ) -> Result<KnownLayout, Memory>
        requires { Layable base listing.now }
        ensures steady { IfOk result (λ g. is_steady g ≡ steady) }
        ensures layout { IfOk result (λ g. HasLayout base g listing.now) }
        ensures near { IfOk result (λ g. StandsNear g 0) }
    {
        if steady {
            return Ok(KnownLayout { kept: None });
        }
        let kept = KeptLayout::of(alloc, listing, base)?;
        Ok(KnownLayout { kept: Some(kept) })
    }

    /// Positions the layout at a place, given by its number now.
    pub(crate) fn go_to(&mut self, place: usize)
        requires { IfSome self.old.kept IsLaid }
        ensures steady { is_steady self.new ≡ is_steady self.old }
        ensures layout { (base : ℕ) (lines : List Listed) → HasLayout base self.old lines → HasLayout base self.new lines }
        ensures near { StandsNear self.new place }
    {
        if let Some(kept) = &mut self.kept {
            kept.go_to(place);
        }
    }

    /// Replaces the window at which the layout is positioned by as many instructions or fewer. The layout moves by `moved`, and the lines that are left can be
    /// laid out. Nothing moves where as many come.
    pub(crate) fn give_way(
        &mut self,
        window: &[Instr],
        new: &[Instr],
        moved: &Move,
    ) -> Result<(), Memory>
        requires { Allows self.old window.now new.now moved.now }
        ensures steady { OnOk result (is_steady self.new ≡ is_steady self.old) }
        ensures layout { OnOk result ((base : ℕ) (lines : List Listed) (place : ℕ) → HasLayout base self.old lines → StandsNear self.old place → IsWindow lines place window.now → HasLayout base self.new (replaced_lines own_line place (length window.now) new.now lines)) }
    {
        if new.len() == window.len() {
            return Ok(());
        }
        if let Some(kept) = &mut self.kept {
            kept.give_way(window, new, moved)?;
        }
        Ok(())
    }
}
