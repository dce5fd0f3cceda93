//! What is asked of a layout once it is found: addresses by place and by name.
ghost use Rattle.std.specs.Prelude.{◌≡◌};
ghost use Rattle.thumb_model.specs.Layout.{cleared as cleared_of};

use crate::sizes::CODE_END;
use indexmap::IndexMap;
use listing_parser::Listing;
use std::marker::Model;

/// Where the places and labels of a listing lie: addresses in bytes, from 0 to `CODE_END`.
#[derive(Drop)]
pub struct Layout {
    pub(crate) base: u32,
    pub(crate) end: u32,
    pub(crate) places: Vec<u32>,
    pub(crate) labels: IndexMap<Vec<u8>, u32>,
}

impl Model for Layout {
    ghost use Rattle.label_layout.specs.Addresses.{Addresses};

    ghost Value = { Addresses };

    ghost use Rattle.label_layout.specs.Addresses.{AreInCode};

    ghost view = { λ l. record { base = l.base; end = l.end; places = l.places.items; labels = l.labels.entries } };

    ghost invariant = { λ l. AreInCode (record { base = l.base; end = l.end; places = l.places.items; labels = l.labels.entries }) };
}

impl Layout {
    ghost use Rattle.std.specs.Prelude.{◌≡◌, ◌<◌, ◌≤◌, ◌^◌, length, slice_get, Some, IsSome, IfSome};
    ghost use Rattle.thumb_model.specs.Layout.{lies_in};
    ghost use Rattle.label_layout.specs.Addresses.{AreAddresses, label_of};

    /// The address of the first byte.
    pub fn base(&self) -> u32
        ensures { result ≡ self.now.base }
    {
        self.base
    }

    /// The address one past the last byte.
    pub fn end(&self) -> u32
        ensures value { result ≡ self.now.end }
        ensures in_code { result ≤ 2 ^ 29 }
    {
        self.end
    }

    /// The address of a place, which is one of the listing's.
    pub fn address(&self, place: u32) -> u32
        requires { place < length self.now.places }
        ensures value { slice_get self.now.places place ≡ Some result }
        ensures in_code { result ≤ 2 ^ 29 }
    {
        self.places[place as usize]
    }

    /// The address of the label of the name, where the listing has one: before any padding of the label's own line.
    pub fn find_label(&self, name: &[u8]) -> Option<u32>
        ensures value { result ≡ label_of self.now name.now }
        ensures in_code { IfSome result (λ address. address ≤ 2 ^ 29) }
    {
        self.labels.get(name).copied()
    }

    /// The address of the label of the name, which the listing has.
    pub fn label(&self, name: &[u8]) -> u32
        requires { IsSome (label_of self.now name.now) }
        ensures value { label_of self.now name.now ≡ Some result }
        ensures in_code { result ≤ 2 ^ 29 }
    {
        match self.find_label(name) {
            Some(address) => address,
            None => unreachable!(),
        }
    }

    /// Where a branch to the name goes: to its label, or to the address that the listing sets for it, with bit 0 cleared. The layout is the listing's.
    pub fn target(&self, listing: &Listing, name: &[u8]) -> Option<u32>
        requires { AreAddresses listing.now self.now }
        ensures { result ≡ lies_in self.now.base listing.now name.now }
    {
        match self.find_label(name) {
            Some(address) => Some(address),
            None => cleared(listing.set_address(name)),
        }
    }
}

/// The address with bit 0 cleared: where a branch goes whose name has this address by `.set`.
pub fn cleared(address: Option<u32>) -> Option<u32>
    ensures { result ≡ cleared_of address }
{
    match address {
        Some(address) => Some(address / 2 * 2),
        None => None,
    }
}
