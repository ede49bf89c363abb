//! What holds of the definitions. Each call does nothing: its clause is the law. The laws speak of the output alone, so they
//! hold of every program that meets the clauses of [`crate::fuun`].
//!
//! Behind the first stand those on what may be chained: the output of one verb, taken as a file of another.
ghost use Rattle.fuun_top.specs.OutputLaws.{HasOutput, HasOneOutput};
ghost use Rattle.fuun_top.specs.RunChains.{RnaGoesOn, DnaGoesOn, TraceGoesOn, DrawnRnaIsImage, DrawnPartsAreImage, RewoundAgrees};
ghost use Rattle.fuun_top.specs.BenchLaws.{LoadsAreCarriedOut, LoadsAreSummedUp};
ghost use Rattle.fuun_top.specs.MadeChains.{PatchesAreCarriedOut, AssembledIsCompiled, AssembledIsListed, ListedIsAssembledAgain, DrawnPictureIsSame, OwnPictureIsSame, PatchIsExplained};

/// Words over files that are told have exactly one output.
pub fn one_output()
    ensures made { HasOutput }
    ensures once { HasOneOutput }
{}

/// A run that spent its budget goes on from the DNA that `dna` wrote: the whole run, with both budgets together, has the
/// RNA of both parts, the end of the second, and its DNA and attempts.
pub fn runs_go_on()
    ensures rna { RnaGoesOn }
    ensures dna { DnaGoesOn }
    ensures trace { TraceGoesOn }
{}

/// What `draw` makes of the RNA that `rna` wrote is what `image` writes; so it is with the RNA of a run in two parts.
pub fn drawn_rna_is_image()
    ensures whole { DrawnRnaIsImage }
    ensures parts { DrawnPartsAreImage }
{}

/// A prefix that `patch` wrote, before a DNA of the stated length, has `dna` write the patched DNA, and `rna` nothing.
pub fn patches_are_carried_out()
    ensures { PatchesAreCarriedOut }
{}

/// What `assemble` wrote, `list` shows as the lines of the text, each behind its place; and a listing of pairs whose
/// numbers are below 2^63, its places cut off, is assembled to a DNA that is read as the same pairs.
pub fn assembled_is_listed()
    ensures shown { AssembledIsListed }
    ensures again { ListedIsAssembledAgain }
{}

/// What `assemble` writes of a file, `compile` writes of it too, under a limit that the DNA is within.
pub fn assembled_is_compiled()
    ensures { AssembledIsCompiled }
{}

/// The `image` of what `picture` wrote is the pixmap's picture, and the pixmap itself where `draw` or `image` wrote it.
pub fn drawn_picture_is_same()
    ensures picture { DrawnPictureIsSame }
    ensures own { OwnPictureIsSame }
{}

/// What `explain` tells of a prefix that `patch` wrote never depends on the target: an attempt a row, no RNA, and the
/// segments of the patched target.
pub fn patch_is_explained()
    ensures { PatchIsExplained }
{}

/// After `step` from the start, `rewind` tells the length with which the line of that attempt begins in `trace`, and
/// `show` the DNA that `dna` writes with so many attempts.
pub fn rewound_agrees()
    ensures { RewoundAgrees }
{}

/// The run of `bench`, for each load that can be asked for, carries its patches out: it spends its budget of an attempt a
/// patch, matches each time, gives no RNA and leaves exactly the patched target, and no DNA on its way reaches 2^26 bases.
/// The summary tells of that.
pub fn loads_are_carried_out()
    ensures run { LoadsAreCarriedOut }
    ensures summary { LoadsAreSummedUp }
{}
