ghost use Rattle.share_core.specs.Boolean.{CodesOpenB, DealtHalvesAgreeB, InstrOpensB};
ghost use Rattle.share_core.specs.Conversions.{A2B, A2Y, B2A, B2Y, OwnOpens, SumOpens, TransferOpens, Y2A};
ghost use Rattle.share_core.specs.Dealing.{AnswersAreDealt};
ghost use Rattle.share_core.specs.Garbled.{AndOpensY, CodesOpenY, InputOpensY, LowBitsStand, OffsetIsDealt, XorOpensY};
ghost use Rattle.share_core.specs.Instructions.{DealtHalvesAgree, InstrOpens};
ghost use Rattle.share_core.specs.Levels.{HalfOfGate, LevelIsShort, MessageByLast, MessageHasLength, PieceOfGate, SharesByLast, SumByLast};
ghost use Rattle.share_core.specs.SharingLaw.{DealtAgree, DealtAreWords, LevelHalvesAgree, LevelHalvesAreWords, MachinesChoose, MachinesCompute, MachinesOpen, MadeAreLabels, PayloadsAreShort, PayloadsHaveLengths, TargetsMatch};
ghost use Rattle.share_core.specs.Sizes.{MessagesHaveLengths};

/// The law of the instructions at A, for proofs: with the other's message and with halves that agree, the new shares of
/// each instruction stand for its value, and an opening gives both parties the word; the halves that are dealt from any
/// words agree.
pub fn instr_law()
    ensures opens { InstrOpens }
    ensures dealt { DealtHalvesAgree }
{}

/// The messages at A and at B have the lengths that are told, for proofs. Those at Y and of conversions have theirs by the
/// contracts of whoever writes them.
pub fn length_law()
    ensures { MessagesHaveLengths }
{}

/// The law of the instructions at B, for proofs: the same of its instructions, and that the shares of the bit that a code
/// means stand for that bit.
pub fn boolean_law()
    ensures opens { InstrOpensB }
    ensures dealt { DealtHalvesAgreeB }
    ensures codes { CodesOpenB }
{}

/// The law of the instructions at Y, for proofs: under any free-XOR offset whose lowest bit is 1 the new labels of an And, an Xor, an
/// input and a code stand for its value, and the permute bits of a word's labels are shares at B of the word. A dealt offset
/// is one.
pub fn garbled_law()
    ensures and { AndOpensY }
    ensures xor { XorOpensY }
    ensures input { InputOpensY }
    ensures bits { LowBitsStand }
    ensures codes { CodesOpenY }
    ensures offset { OffsetIsDealt }
{}

/// The law of the conversions, for proofs: a choice and its answer, with the carries of a sum where it is one of words, give
/// shares of the same word, under any free-XOR offset whose lowest bit is 1 and with masks that agree; those that are dealt from any
/// words agree. Of an input of P1 the wires are those of the transfer. From Y to B the permute bits are the shares, which
/// `garbled_law` says.
pub fn conversion_law()
    ensures transfer { TransferOpens }
    ensures own { OwnOpens }
    ensures sum { SumOpens }
    ensures b_to_y { B2Y }
    ensures a_to_y { A2Y }
    ensures a_to_b { A2B }
    ensures b_to_a { B2A }
    ensures y_to_a { Y2A }
    ensures dealt { AnswersAreDealt }
{}

/// The law of levels, for proofs: their messages, shares, lengths and words, gate by gate. For loops each is split at the last gate.
pub fn level_law()
    ensures message_by_last { MessageByLast }
    ensures shares_by_last { SharesByLast }
    ensures sum_by_last { SumByLast }
    ensures half { HalfOfGate }
    ensures length { MessageHasLength }
    ensures piece { PieceOfGate }
    ensures short { LevelIsShort }
{}

/// The law of all instructions, for proofs, over the machine of one party: where the slots of an instruction's operands stand for values
/// and the dealt halves agree, the new shares stand for the instruction's values, and an opening gives both parties its word. A choice leaves
/// what its answer wants, and each payload has the length that is told.
pub fn machine_law()
    ensures compute { MachinesCompute }
    ensures open { MachinesOpen }
    ensures choose { MachinesChoose }
    ensures lengths { PayloadsHaveLengths }
    ensures short { PayloadsAreShort }
    ensures targets { TargetsMatch }
    ensures labels { MadeAreLabels }
    ensures halves { DealtAgree }
    ensures words { DealtAreWords }
    ensures level_halves { LevelHalvesAgree }
    ensures level_words { LevelHalvesAreWords }
{}
