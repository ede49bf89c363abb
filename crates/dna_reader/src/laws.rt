//! What holds of the definitions. Each call does nothing: its clause is the law.
ghost use Rattle.dna_reader.specs.CodeLaws.{NumberIsRead, PatternCodeIsRead, OnlyReadableIsRead, TemplateCodeIsRead, PairCodeIsRead};
ghost use Rattle.dna_reader.specs.CommandLaws.{GivesCommands, LinesAreGood, LinesAreRead};
ghost use Rattle.dna_reader.specs.ReadingLaws.{HasCutting, HasOneCutting, HasReading, HasOneReading, HasShortReadings, HasShortRna, PatternsAreBalanced, HasPair, HasOnePair, PairsDoNotRunOut, PairGivesOnce, ConstantsAreLongest, ConstantsAreOne, NumeralByDigits};
ghost use Rattle.dna_reader.specs.RnaLines.{PartIsFront};
ghost use Rattle.dna_reader.specs.Tables.{pattern_table, template_table};
ghost use Rattle.dna_reader.specs.Worked.{PatternWorked, TemplateWorked, SearchWorked, CommandWorked, ShortCommandWorked, NoNumeralWorked, OpenGroupWorked, PairWorked, SearchPairWorked};

/// Each DNA is cut into pieces of a pattern, and so read as one, in exactly one way.
pub fn one_pattern()
    ensures cut { HasCutting pattern_table }
    ensures cut_once { HasOneCutting pattern_table }
    ensures read { HasReading pattern_table }
    ensures once { HasOneReading pattern_table }
{}

/// Each DNA is cut into pieces of a template, and so read as one, in exactly one way.
pub fn one_template()
    ensures cut { HasCutting template_table }
    ensures cut_once { HasOneCutting template_table }
    ensures read { HasReading template_table }
    ensures once { HasOneReading template_table }
{}

/// A reading gives no more items and commands than it takes bases.
pub fn short_readings()
    ensures pattern { HasShortReadings pattern_table }
    ensures pattern_rna { HasShortRna pattern_table }
    ensures template { HasShortReadings template_table }
    ensures template_rna { HasShortRna template_table }
{}

/// The items of a pattern that was read to its end are balanced.
pub fn balanced_patterns()
    ensures { PatternsAreBalanced }
{}

/// Each DNA is read as a pair or runs out, never both, and in one way, with one RNA.
pub fn one_pair()
    ensures made { HasPair }
    ensures once { HasOnePair }
    ensures apart { PairsDoNotRunOut }
    ensures rna_once { PairGivesOnce }
{}

/// The constants that begin a DNA are the longest list whose quote begins it, and the only such list.
pub fn longest_constants()
    ensures longest { ConstantsAreLongest }
    ensures once { ConstantsAreOne }
{}

/// A numeral, digit by digit.
pub fn numeral_by_digits()
    ensures { NumeralByDigits }
{}

/// Readings worked by hand: a pattern, a template, a search, commands, and what runs out.
pub fn readings_worked()
    ensures pattern { PatternWorked }
    ensures template { TemplateWorked }
    ensures search { SearchWorked }
    ensures command { CommandWorked }
    ensures short_command { ShortCommandWorked }
    ensures no_numeral { NoNumeralWorked }
    ensures open_group { OpenGroupWorked }
{}

/// A number written as bases is read again.
pub fn number_code()
    ensures { NumberIsRead }
{}

/// A pattern has DNA that is read as it and gives no RNA exactly where it is balanced and no search stands directly
/// before a base: its code is such DNA.
pub fn pattern_codes()
    ensures read { PatternCodeIsRead }
    ensures only { OnlyReadableIsRead }
{}

/// The code of a template is read as it, without RNA.
pub fn template_codes()
    ensures { TemplateCodeIsRead }
{}

/// The code of a pair is read as its pattern and then as its template, without RNA.
pub fn pair_codes()
    ensures { PairCodeIsRead }
{}

/// Codes worked by hand.
pub fn codes_worked()
    ensures pair { PairWorked }
    ensures search { SearchPairWorked }
{}

/// A writer of lines that stands within commands has written a front of their lines.
pub fn lines_in_part()
    ensures { PartIsFront }
{}

/// A reading gives commands of at most seven bases.
pub fn short_commands()
    ensures pattern { GivesCommands pattern_table }
    ensures template { GivesCommands template_table }
{}

/// The lines of commands are read as the same commands, and where each is of at most seven bases, no line is bad.
pub fn lines_are_read()
    ensures same { LinesAreRead }
    ensures good { LinesAreGood }
{}
