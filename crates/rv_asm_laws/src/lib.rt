//! Laws of the assembler, each the contract of a function that does nothing.
#![tactic(auto)]

ghost use Rattle.rv_asm.specs.Law.{InstructionsDecode, PartsHaveOneSpelling};
ghost use Rattle.rv_asm_laws.specs.Laws.{LiLoads, LaLoads, JumpsReach, BranchesReach, AddressesAreSizes, LabelsHaveAddresses, EntriesAreLabelled, UnlabelledEntriesAreStarts, FirstFaultsAreAnswered, AllLinesAreLaid, OperandFaultsAreInOrder, LineFaultsAreInOrder, LabelFaultsAreInOrder, FirstLabelFaultsAreAnswered, AllLabelsAreThere, ListingsAreAssembled, EndBlanksGo, ColonBlanksGo, WordBlanksGo, CommaBlanksGo, OpeningBlanksGo, ClosingBlanksGo, CommentsGo};

/// In the bytes that lay out an assembly, the word at the place of each instruction is decoded to
/// that instruction; and the bytes are the only ones that lay it out.
#[tactic(auto, using(rv_asm::proofs::Spelled::decodes, rv_asm::proofs::Spelled::one_spelling))]
pub fn assembly_law()
    ensures decoded { InstructionsDecode }
    ensures one { PartsHaveOneSpelling }
{}

/// What the instructions of `li rd, n` and `la rd, label` do when they run: `li` leaves n modulo
/// 2^32 in rd, `la` the label's address, and nothing else changes but the pc.
#[tactic(auto, using(crate::proofs::Running::li_loads, crate::proofs::Running::la_loads))]
pub fn words_are_loaded()
    ensures li { LiLoads }
    ensures la { LaLoads }
{}

/// A jump, and a branch that is taken, goes to the address of its label; it stops as `Target` where
/// that is not a multiple of 4.
#[tactic(auto, using(crate::proofs::Running::jal_jumps, crate::proofs::Running::branch_jumps))]
pub fn jumps_reach_their_labels()
    ensures jump { JumpsReach }
    ensures branch { BranchesReach }
{}

/// A label's address is the start of the image and the size of all that is laid before its line,
/// which is the sum of the sizes of the statements before it.
#[tactic(auto, using(crate::proofs::Labelling::label_addresses, crate::proofs::Summing::address_behind))]
pub fn labels_have_addresses()
    ensures sizes { AddressesAreSizes }
    ensures address { LabelsHaveAddresses }
{}

/// The entry is the address of the label `start`, and the start of the image where no line has it.
#[tactic(auto, using(crate::proofs::Labelling::entry_at_start, crate::proofs::Labelling::entry_without_start))]
pub fn entries_are_labelled()
    ensures labelled { EntriesAreLabelled }
    ensures without { UnlabelledEntriesAreStarts }
{}

/// The first pass answers the first line that has a fault, with its kind: each line is judged by
/// what the lines before it laid. Where no line has a fault, it answers what they lay.
#[tactic(auto, using(crate::proofs::FirstFaults::first_fault_of, crate::proofs::FirstFaults::are_laid))]
pub fn first_faults_are_answered()
    ensures fault { FirstFaultsAreAnswered }
    ensures laid { AllLinesAreLaid }
{}

/// The fault of a statement's operands: each kind is a test of its own on all operands in their
/// places, and the first kind that some operand has is answered.
#[tactic(auto, using(crate::proofs::OperandFaults::operands_judged))]
pub fn operand_faults_are_in_order()
    ensures { OperandFaultsAreInOrder }
{}

/// The fault of a line: each kind is a test of its own on the line and on what the lines before it
/// laid, and the first kind that the line has is answered.
#[tactic(auto, using(crate::proofs::LineJudged::lines_judged))]
pub fn line_faults_are_in_order()
    ensures { LineFaultsAreInOrder }
{}

/// The fault of a statement's label: each kind is a test of its own on the statement, its address
/// and what names mean in the whole text.
#[tactic(auto, using(crate::proofs::LabelsJudged::labels_judged))]
pub fn label_faults_are_in_order()
    ensures { LabelFaultsAreInOrder }
{}

/// The second pass answers the first statement whose label has a fault, with its line and its kind.
/// Where it finds none, no statement's label has one.
#[tactic(auto, using(crate::proofs::LabelsJudged::first_label_fault, crate::proofs::LabelsJudged::labels_there))]
pub fn first_label_faults_are_answered()
    ensures fault { FirstLabelFaultsAreAnswered }
    ensures none { AllLabelsAreThere }
{}

/// A listing of valid instructions, each written as the table has it, assembles to exactly these,
/// in their order, and is entered at the first. The instructions name no labels, and empty lines
/// and comments may stand between them.
#[tactic(auto, using(crate::proofs::Listed::listing_assembles))]
pub fn listings_are_assembled()
    ensures { ListingsAreAssembled }
{}

/// Blanks change nothing: there may be any number of them at the ends of a line, on both sides of
/// the colon behind a label, behind a mnemonic where there is one, and on both sides of a comma
/// between operands and of a bracket.
#[tactic(auto, using(crate::proofs::Blanks::ends_go, crate::proofs::Blanks::colon_goes, crate::proofs::Blanks::word_goes, crate::proofs::Blanks::comma_goes, crate::proofs::Blanks::opening_goes, crate::proofs::Blanks::closing_goes))]
pub fn blanks_change_nothing()
    ensures ends { EndBlanksGo }
    ensures colon { ColonBlanksGo }
    ensures word { WordBlanksGo }
    ensures comma { CommaBlanksGo }
    ensures opening { OpeningBlanksGo }
    ensures closing { ClosingBlanksGo }
{}

/// A comment changes nothing of what a line means.
#[tactic(auto, using(crate::proofs::Comments::comment_goes))]
pub fn comments_change_nothing()
    ensures { CommentsGo }
{}
