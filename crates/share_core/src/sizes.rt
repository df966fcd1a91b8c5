ghost use Rattle.std.specs.Prelude.{◌≡◌, ◌≤◌};
ghost use Rattle.share_core.specs.Instructions.{frame_code, has_frame};
ghost use Rattle.share_core.specs.Sizes.{sent};

use crate::byte_numbers::byte_count;
use crate::instr::{Instr, InstrKind};
use hy_bits::Role;

impl InstrKind {
    /// The code of the frames of such an instruction; 0 where nothing is sent for it.
    pub fn frame_code(self) -> u8
        ensures { result ≡ frame_code self }
    {
        match self {
            InstrKind::InAP0 | InstrKind::InAP1 => 1,
            InstrKind::InBP0 | InstrKind::InBP1 => 2,
            InstrKind::InYP0 => 3,
            InstrKind::ChooseIn | InstrKind::ChooseA | InstrKind::ChooseB => 4,
            InstrKind::AnswerIn | InstrKind::AnswerToA => 5,
            InstrKind::AnswerSharesA | InstrKind::AnswerSharesB => 5,
            InstrKind::LevelA => 6,
            InstrKind::LevelB => 7,
            InstrKind::LevelY | InstrKind::Carries => 8,
            InstrKind::OpenA | InstrKind::OpenB | InstrKind::OpenY => 9,
            _ => 0,
        }
    }

    /// Whether the role sends a frame for such an instruction.
    pub fn has_frame(self, role: Role) -> bool
        ensures { result ≡ has_frame self role }
    {
        match (self, role) {
            (InstrKind::LevelA | InstrKind::LevelB, _) => true,
            (InstrKind::OpenA | InstrKind::OpenB | InstrKind::OpenY, _) => true,
            (InstrKind::InAP0 | InstrKind::InBP0 | InstrKind::InYP0, Role::P0) => true,
            (InstrKind::AnswerIn | InstrKind::AnswerToA, Role::P0) => true,
            (InstrKind::AnswerSharesA | InstrKind::AnswerSharesB, Role::P0) => true,
            (InstrKind::LevelY | InstrKind::Carries, Role::P0) => true,
            (InstrKind::InAP1 | InstrKind::InBP1, Role::P1) => true,
            (InstrKind::ChooseIn | InstrKind::ChooseA | InstrKind::ChooseB, Role::P1) => true,
            _ => false,
        }
    }
}

impl Instr {
    /// The number of bytes that the role sends for the instruction, or for it as one gate of a level. Of a level itself the
    /// bytes are those of its gates, and this is 0.
    pub fn sent(&self, role: Role) -> u32
        ensures value { result ≡ sent self.now.kind self.now.width role }
        ensures few { result ≤ 3072 }
    {
        let bits = self.width.bits();
        let word = byte_count(self.width) as u32;
        match (self.kind, role) {
            (InstrKind::InAP0 | InstrKind::InBP0, Role::P0) => word,
            (InstrKind::InAP1 | InstrKind::InBP1, Role::P1) => word,
            (InstrKind::ChooseIn | InstrKind::ChooseA | InstrKind::ChooseB, Role::P1) => word,
            (InstrKind::OpenA | InstrKind::OpenB | InstrKind::OpenY, _) => word,
            (InstrKind::InYP0, Role::P0) => 16 * bits,
            (InstrKind::AnswerIn, Role::P0) => 32 * bits,
            (InstrKind::AnswerSharesA | InstrKind::AnswerSharesB, Role::P0) => 48 * bits,
            (InstrKind::AnswerToA, Role::P0) => 2 * word * bits,
            (InstrKind::Carries, Role::P0) => 32 * (bits - 1),
            (InstrKind::MulA, _) => 2 * word,
            (InstrKind::AndB, _) => 1,
            (InstrKind::AndY, Role::P0) => 32,
            _ => 0,
        }
    }
}
