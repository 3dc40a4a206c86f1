//! What an edit keeps of the version before it.

ghost use Rattle.std.specs.Prelude.{◌≡◌, ◌*◌, ◌≤◌};
ghost use Rattle.field_pages.specs.Kept.{page_count};

use crate::page::{MAX_ACROSS, Page};
use lattice::sizes_of_worlds;
use std::marker::Model;

/// A page as it was before an edit, which versions share.
#[derive(Debug, Drop)]
pub(crate) struct KeptPage {
    number: usize,
    page: Page,
}

impl Model for KeptPage {
    ghost use Rattle.field_pages.specs.Kept.{OldPage};

    ghost Value = { OldPage };

    ghost view = { λ kept. record { number = kept.number; samples = kept.page } };
}

impl KeptPage {
    /// Keeps the page with this number in its layer.
    pub(crate) fn new(number: usize, page: Page) -> KeptPage
        ensures { result ≡ record { number = number; samples = page } }
    {
        KeptPage { number, page }
    }

    /// Returns the number of the page in its layer.
    pub(crate) fn number(&self) -> usize
        ensures { result ≡ self.now.number }
    {
        self.number
    }

    /// Returns the page.
    pub(crate) fn page(&self) -> &Page
        ensures { result.now ≡ self.now.samples }
    {
        &self.page
    }
}

/// The pages of a layer as they were before an edit, those of them that it changed.
#[derive(Debug, Drop)]
pub(crate) struct KeptLayer {
    number: usize,
    pages: Vec<KeptPage>,
}

impl Model for KeptLayer {
    ghost use Rattle.field_pages.specs.Kept.{OldLayer};

    ghost Value = { OldLayer };

    ghost view = { λ kept. record { number = kept.number; pages = kept.pages.items } };
}

impl KeptLayer {
    /// Keeps pages of the layer with this number.
    pub(crate) fn new(number: usize, pages: Vec<KeptPage>) -> KeptLayer
        ensures { result ≡ record { number = number; pages = pages.items } }
    {
        KeptLayer { number, pages }
    }

    /// Returns the number of the layer.
    pub(crate) fn number(&self) -> usize
        ensures { result ≡ self.now.number }
    {
        self.number
    }

    /// Returns the pages, by rising numbers.
    pub(crate) fn pages(&self) -> &[KeptPage]
        ensures { result.now ≡ self.now.pages }
    {
        &self.pages
    }
}

/// What an edit keeps of the version before it: the pages in which a sample changed, as they were. The version before
/// it shares them, and so do older ones: no samples are copied.
#[derive(Debug)]
pub struct Kept {
    depth: u8,
    layers: Vec<KeptLayer>,
}

impl Model for Kept {
    ghost use Rattle.field_pages.specs.Kept.{AreVersionPages, OldPages};

    ghost Value = { OldPages };

    ghost view = { λ kept. record { depth = kept.depth; layers = kept.layers.items } };

    ghost invariant = { λ kept.
        AreVersionPages (record { depth = kept.depth; layers = kept.layers.items }) };
}

// Written out, since a derived drop is proved anew in each crate that drops kept pages.
impl Drop for Kept {
    fn drop(self) {
        let Self {
            depth: _,
            layers: _layers,
        } = self;
    }
}

impl Kept {
    ghost use Rattle.field_pages.specs.Kept.{AreVersionPages};

    /// Keeps pages of layers of a version of this depth.
    pub(crate) fn new(depth: u8, layers: Vec<KeptLayer>) -> Kept
        requires { AreVersionPages (record { depth = depth; layers = layers.items }) }
        ensures { result ≡ record { depth = depth; layers = layers.items } }
    {
        Kept { depth, layers }
    }

    /// Returns the depth of the world.
    pub fn depth(&self) -> u8
        ensures { result ≡ self.now.depth }
    {
        self.depth
    }

    /// Returns the layers that have pages here, by rising numbers.
    pub(crate) fn layers(&self) -> &[KeptLayer]
        ensures value { result.now ≡ self.now.layers }
        ensures sound { AreVersionPages self.now }
    {
        &self.layers
    }

    /// Returns how many pages these are. They are no more than those of the largest world.
    pub fn pages(&self) -> u32
        ensures count { result ≡ page_count self.now.layers }
        ensures few { result ≤ MAX_ACROSS * MAX_ACROSS * MAX_ACROSS }
    {
        sizes_of_worlds();
        let mut count = 0;
        for layer in &self.layers {
            count += layer.pages().len() as u32;
        }
        count
    }
}
