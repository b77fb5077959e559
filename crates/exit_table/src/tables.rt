//! The tables of an object.

use b3_base::Seq;
use stackmap::{Returns, Saved, Site, SlotRows};

/// The frame of a procedure: its size in bytes, what it returns, and where its slots and its saved
/// registers stand. x29 is the entry SP less 16.
#[derive(Drop)]
pub struct FrameRow {
    pub bytes: u32,
    pub returns: Returns,
    pub slots: SlotRows,
    pub saved: Saved,
}

/// The frames of the procedures of a text, in order.
pub type FrameRows = Seq<FrameRow>;

/// A site and where it stands: `pc` is the byte of the text at which its first word begins.
#[derive(Drop)]
pub struct SiteRow {
    pub pc: u32,
    pub site: Site,
}

/// The sites of a text, in the order of their places.
pub type SiteRows = Seq<SiteRow>;

/// The tables of a text: a frame for each procedure, and every site.
#[derive(Drop)]
pub struct Tables {
    pub frames: FrameRows,
    pub sites: SiteRows,
}
