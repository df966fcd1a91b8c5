use hy_bits::{Role, Turns};

/// A program to compile and run: its files by name, and what the compiler and the run are told.
#[derive(Debug, Drop)]
pub struct Exec {
    pub source: String,
    pub a: String,
    pub b: String,
    pub table: String,
    pub bundle: String,
    pub layers: u32,
    pub bound: Option<u32>,
    pub turns: Turns,
}

/// A command with its values.
#[derive(Debug, Drop)]
pub enum Request {
    /// To compile and run a program.
    Exec {
        job: Exec,
        seed: [u8; 32],
    },
    /// To compile a program into a bundle.
    Compile {
        source: String,
        table: String,
        bundle: String,
        layers: u32,
        bound: Option<u32>,
    },
    /// To run a bundle.
    Run {
        bundle: String,
        a: String,
        b: String,
        seed: [u8; 32],
        turns: Turns,
    },
    /// To check that the choices of a bundle are the least.
    Check {
        bundle: String,
    },
    /// To run a program without circuits.
    Plain {
        source: String,
        a: String,
        b: String,
        bound: Option<u32>,
    },
    /// To make the work of a number, and to compile and run it.
    Gen {
        number: u32,
        job: Exec,
    },
    /// To bring a bundle to the format of today.
    Migrate {
        old: String,
        new: String,
    },
    /// To make a bundle of a circuit.
    Import {
        file: String,
        table: String,
        bundle: String,
    },
    /// To write a module's circuit.
    Export {
        bundle: String,
        module: u32,
        file: String,
    },
    /// To begin the run of one party.
    Begin {
        role: Role,
        bundle: String,
        own: String,
        state: String,
        outbox: String,
        seed: [u8; 32],
    },
    /// To take a turn of one party.
    Turn {
        state: String,
        inbox: String,
        outbox: String,
    },
    /// To log the rewriting of a module's circuit.
    Log {
        bundle: String,
        module: u32,
        file: String,
    },
    /// To confirm such a log.
    Confirm {
        file: String,
    },
}
