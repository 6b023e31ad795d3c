//! That the functions of `specs/Choices.antt` find what the relations of `specs/Entries.antt` say.

ghost use Rattle.storage_model.specs.Choices.{AreChoices, AreDecided};

/// ONIE's place and its entry in a table that has one entry of its type, and the used entry of a GUID in a sane table.
pub fn choices_are_found()
    ensures { AreChoices }
{}

/// Which system a text of variables names, and what a board and an image boot: the functions tell what the relations say.
pub fn names_and_boots_are_decided()
    ensures { AreDecided }
{}
