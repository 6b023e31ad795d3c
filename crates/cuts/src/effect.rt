//! What changes a board.

use bd_dev::Bytes;
use gpt_copy::Table;

/// What changed a board.
#[derive(Drop)]
pub enum Effect {
    /// Whole sectors of 512 bytes were put on the disk, from this address on.
    Put { lba: u64, sectors: Bytes },
    /// What was put was made durable.
    Sync,
    /// This became the disk's table.
    Table(Table),
    /// This became the text of the variables, under the next number.
    Vars(Bytes),
}
