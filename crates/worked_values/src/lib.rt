//! What the definitions of the specification say of values that were worked out by hand. Each clause holds whatever the
//! code is: the prover computes it from the definitions alone. `docs/TRUSTED.md` shows it beside its definition.
#![tactic(auto)]

ghost use Rattle.std.specs.Prelude.{ℕ, ℤ};
ghost use Rattle.worked_values.specs.Conflicts.{UnitsAreBusy, DriversMeet, WritesMeet, BusesAreBare, ResultsAreMissing};
ghost use Rattle.worked_values.specs.Conflicts.{AddressesAreOutside};
ghost use Rattle.worked_values.specs.Definitions.{EachSourceDefines, WordsComeInOrder, LoopsHaveTurns, SubscriptsHaveValues};
ghost use Rattle.worked_values.specs.Operations.{SumsComeToWords, ComparisonsComeToTruths, TruthsComeToTruths};
ghost use Rattle.worked_values.specs.Files.{BytesSpellTheImage, BitsSpellTheImage, OthersDoNotSpellTheImage};
ghost use Rattle.worked_values.specs.Files.{OnlyTheImageIsSpelled};
ghost use Rattle.datapath.specs.declared.types.Datapath.{Datapath};
ghost use Rattle.worked_values.specs.Paths.{FileDescribesThePath, OthersAreNotDescribed};
ghost use Rattle.worked_values.specs.Programs.{TokensAreTheProgram, KindsHaveWeights};
ghost use Rattle.worked_values.specs.Runs.{SixCyclesWrite, AddressesGoRound, LoadsTakeTwoCycles, WritesComeAtTheEnd};
ghost use Rattle.worked_values.specs.Runs.{ThreeSamplesRun, WordsComeRound, TheGreaterUnitStays};
ghost use Rattle.worked_values.specs.Solutions.{RowsAreWords, SumsAreTheSolution, SumsComeOut};
ghost use Rattle.worked_values.specs.Tokens.{TextHasTokens, TextsHaveOtherTokens};
ghost use Rattle.worked_values.specs.Values.{LeavesHaveValues, SumsAndProductsHaveValues, ShiftsHaveValues};
ghost use Rattle.worked_values.specs.Values.{CastsHaveValues, ComparisonsHaveValues, TruthsHaveValues};
ghost use Rattle.worked_values.specs.Values.{ChoicesHaveValues, PartsHaveWords, OthersHaveNoValue};
ghost use Rattle.worked_values.specs.Words.{RoundEachWay, OverflowEachWay, ShiftToTheLeft, NumbersHaveWords};

/// The tokens of a text.
pub fn tokens()
    ensures each { TextHasTokens }
    ensures others { TextsHaveOtherTokens }
{}

/// The program of tokens.
pub fn programs()
    ensures program { TokensAreTheProgram }
    ensures weights { KindsHaveWeights }
{}

/// How numbers are brought to words.
pub fn words()
    ensures rounded { RoundEachWay }
    ensures overflown { OverflowEachWay }
    ensures shifted { ShiftToTheLeft }
    ensures literals { NumbersHaveWords }
{}

/// The values of expressions.
pub fn values()
    ensures leaves { LeavesHaveValues }
    ensures sums { SumsAndProductsHaveValues }
    ensures shifts { ShiftsHaveValues }
    ensures casts { CastsHaveValues }
    ensures comparisons { ComparisonsHaveValues }
    ensures truths { TruthsHaveValues }
    ensures choices { ChoicesHaveValues }
    ensures parts { PartsHaveWords }
    ensures others { (v : ℤ) → OthersHaveNoValue v }
{}

/// The solution of a program.
pub fn solutions()
    ensures streams { RowsAreWords }
    ensures solution { SumsAreTheSolution }
    ensures rows { SumsComeOut }
{}

/// Where the words of elements come from.
pub fn definitions()
    ensures sources { EachSourceDefines }
    ensures order { WordsComeInOrder }
    ensures turns { (turn : ℤ) → LoopsHaveTurns turn }
    ensures subscripts { (k : ℕ) → SubscriptsHaveValues k }
{}

/// The operations of the machine.
pub fn operations()
    ensures sums { SumsComeToWords }
    ensures comparisons { ComparisonsComeToTruths }
    ensures truths { TruthsComeToTruths }
{}

/// A run of the machine.
pub fn runs()
    ensures written { SixCyclesWrite }
    ensures addresses { AddressesGoRound }
    ensures loads { LoadsTakeTwoCycles }
    ensures cells { WritesComeAtTheEnd }
    ensures rows { ThreeSamplesRun }
    ensures round { WordsComeRound }
    ensures latch { TheGreaterUnitStays }
{}

/// The conflicts of a cycle.
pub fn conflicts()
    ensures busy { UnitsAreBusy }
    ensures drivers { DriversMeet }
    ensures writes { WritesMeet }
    ensures bare { BusesAreBare }
    ensures results { ResultsAreMissing }
    ensures addresses { AddressesAreOutside }
{}

/// The files of an image.
pub fn files()
    ensures in_bytes { BytesSpellTheImage }
    ensures in_bits { BitsSpellTheImage }
    ensures others { OthersDoNotSpellTheImage }
    ensures unique { OnlyTheImageIsSpelled }
{}

/// The datapath of a file.
pub fn paths()
    ensures path { FileDescribesThePath }
    ensures others { (d : Datapath) → OthersAreNotDescribed d }
{}
