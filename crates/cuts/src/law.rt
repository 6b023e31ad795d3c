//! The law of cuts.

ghost use Rattle.cuts.specs.Law.{CleanCutsAreCuts, LawOfCuts, LawOfStarts, SoundBoardsAreStarts};
ghost use Rattle.cuts.specs.Whole.{LawOfBoots, LawOfEnds, LawOfOpenings, LawOfSuccess, LawOfTheLast};

/// The law of cuts: from a sound state, with pending sectors in neither ONIE's entry nor the named one, at every cut
/// of every lawful and orderly run of effects the image is sound, ONIE's partition reads as at the start, and the NOS
/// that is named reads as in the state that the run has reached.
pub fn law_of_cuts()
    ensures { LawOfCuts }
{}

/// After each effect of such a run the state is again one from which the law holds.
pub fn law_of_starts()
    ensures { LawOfStarts }
{}

/// While the table is set a torn copy of it is excused only where the image is clean, and at every other moment both
/// copies stand: an image of which that holds, and which is clean, is a cut.
pub fn clean_cuts_are_cuts()
    ensures { CleanCutsAreCuts }
{}

/// What a sound board holds is a state from which the law holds, with nothing pending. So the law holds anew after a
/// power cut, however often power cuts come.
pub fn sound_boards_are_starts()
    ensures { SoundBoardsAreStarts }
{}

/// What a power cut leaves while a sound board is opened boots as that board did, wherever it is clean.
pub fn law_of_openings()
    ensures { LawOfOpenings }
{}

/// Success stays: once a run has synced, and put no sectors since, nothing is pending. Whatever cut comes then holds all
/// of the state that the run has reached, orderly or not.
pub fn law_of_success()
    ensures { LawOfSuccess }
{}

/// An image that holds all of a sound state boots what that state's table and variables say, and only that.
pub fn law_of_boots()
    ensures { LawOfBoots }
{}

/// At the end of an orderly run whatever cut comes boots, also where sectors are pending: no torn copy is to be excused.
pub fn law_of_ends()
    ensures { LawOfEnds }
{}

/// A cut behind the last effect is one in which that effect runs. So where a board failed in an effect, those before it
/// are done, and of that one nothing need be known.
pub fn law_of_the_last()
    ensures { LawOfTheLast }
{}
