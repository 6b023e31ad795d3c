//! That the function of `specs/Alone.antt` gives what keeping ONIE's entry alone makes.

ghost use Rattle.gpt_table.specs.Alone.{OnieIsAlone};

use storage_model::choices_are_found;

/// The table that [`keep_alone`](crate::keep_alone) makes by the number of ONIE's entry is a function of the table.
pub fn onie_is_kept_alone()
    ensures { OnieIsAlone }
{
    choices_are_found();
}
