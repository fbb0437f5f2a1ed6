ghost use Rattle.std.specs.Prelude.{◌++◌, ◌∷◌, [], OnErr, OnOk, codes};
ghost use Rattle.std.specs.Fmt.{decimal};
ghost use Rattle.std.specs.List.{flat_map};
ghost use Rattle.hex.specs.Hex.{encode_lower};
ghost use Rattle.rp_outcome.specs.Output.{Differs, Finishes, PrintsAll, PrintsPart, Refuses, output};
ghost use Rattle.rp_outcome.specs.Words.{line_text, piece_text, words_text};

use crate::refusal::{MOST, Refusal, Word};
use crate::status::{DIFFERS, DONE, MEMORY, SINK};
use itoa::Buffer;
use rp_base::Failed;
use rp_io::Sink;

/// Ends a command that is done with its text: prints it and answers `DONE`, or `SINK` where the sink failed.
pub fn finish<K: Sink>(out: &mut K, text: &str) -> u8
    ensures { Finishes (output K.told K.faults out.old) (output K.told K.faults out.new) text.now result }
{
    match print(out, text) {
        Ok(()) => DONE,
        Err(Failed) => SINK,
    }
}

/// Ends a command that tells a difference with its text, in pieces: prints them and answers `DIFFERS`, or `SINK` where the
/// sink failed.
pub fn differ<K: Sink>(out: &mut K, pieces: &[&str]) -> u8
    ensures { Differs (output K.told K.faults out.old) (output K.told K.faults out.new) (flat_map (λ piece. piece.now) pieces.now) result }
{
    match print_pieces(out, pieces) {
        Ok(()) => DIFFERS,
        Err(_) => SINK,
    }
}

/// Prints texts one behind another, as far as the sink takes them.
pub fn print_pieces<K: Sink>(out: &mut K, pieces: &[&str]) -> Result<(), Failed>
    ensures done { OnOk result (PrintsAll (output K.told K.faults out.old) (output K.told K.faults out.new)
        (flat_map (λ piece. piece.now) pieces.now)) }
    ensures failed { OnErr result (PrintsPart (output K.told K.faults out.old) (output K.told K.faults out.new)
        (flat_map (λ piece. piece.now) pieces.now)) }
{
    for piece in pieces {
        print(out, piece)?;
    }
    Ok(())
}

/// Ends a command that isn't done: prints the refusal's line and answers its status, which stays where the sink fails.
pub fn refuse<K: Sink>(out: &mut K, refusal: &Refusal) -> u8
    ensures { Refuses (output K.told K.faults out.old) (output K.told K.faults out.new) refusal.now result }
{
    if refusal.status == MEMORY {
        return MEMORY;
    }
    let _ = print_line(out, refusal.status, &refusal.words);
    refusal.status
}

#[tactic(auto, using(crate::proofs::Printed::then_all, crate::proofs::Printed::then_part, crate::proofs::Printed::part_more))]
fn print_line<K: Sink>(out: &mut K, status: u8, words: &[Word; MOST]) -> Result<(), Failed>
    ensures done { OnOk result (PrintsAll (output K.told K.faults out.old) (output K.told K.faults out.new)
        (codes "error " ++ decimal status ++ words_text words.now ++ codes "\n")) }
    ensures failed { OnErr result (PrintsPart (output K.told K.faults out.old) (output K.told K.faults out.new)
        (codes "error " ++ decimal status ++ words_text words.now ++ codes "\n")) }
{
    print(out, "error ")?;
    print_number(out, u64::from(status))?;
    print_words(out, words)?;
    print(out, "\n")
}

fn print_words<K: Sink>(out: &mut K, words: &[Word]) -> Result<(), Failed>
    ensures done { OnOk result (PrintsAll (output K.told K.faults out.old) (output K.told K.faults out.new) (words_text words.now)) }
    ensures failed { OnErr result (PrintsPart (output K.told K.faults out.old) (output K.told K.faults out.new) (words_text words.now)) }
{
    for word in words {
        print_word(out, word)?;
    }
    Ok(())
}

// Prints a word behind a blank, if there is one.
#[tactic(auto, using(crate::proofs::Printed::then_all, crate::proofs::Printed::then_part, crate::proofs::Printed::part_more), unfolding(crate::specs::Words::words_text))]
fn print_word<K: Sink>(out: &mut K, word: &Word) -> Result<(), Failed>
    ensures done { OnOk result (PrintsAll (output K.told K.faults out.old) (output K.told K.faults out.new)
        (words_text (word.now ∷ []))) }
    ensures failed { OnErr result (PrintsPart (output K.told K.faults out.old) (output K.told K.faults out.new)
        (words_text (word.now ∷ []))) }
{
    match *word {
        Word::Absent => Ok(()),
        Word::Text(text) => {
            print(out, " ")?;
            print(out, text)
        }
        Word::Number(number) => {
            print(out, " ")?;
            print_number(out, number)
        }
        Word::Piece(file, part) => {
            print(out, " ")?;
            print_piece(out, file, part)
        }
        Word::Line(file, part, line) => {
            print(out, " ")?;
            print_place(out, file, part, line)
        }
        Word::Hash(bytes) => {
            print(out, " ")?;
            print_hash(out, bytes)
        }
    }
}

// Prints the name of a definition file, or of its drop-in of this name where there is one.
#[tactic(auto, using(crate::proofs::Printed::then_all, crate::proofs::Printed::then_part, crate::proofs::Printed::part_more))]
fn print_piece<K: Sink>(out: &mut K, file: &str, part: &str) -> Result<(), Failed>
    ensures done { OnOk result (PrintsAll (output K.told K.faults out.old) (output K.told K.faults out.new)
        (piece_text file.now part.now)) }
    ensures failed { OnErr result (PrintsPart (output K.told K.faults out.old) (output K.told K.faults out.new)
        (piece_text file.now part.now)) }
{
    if part.is_empty() {
        print(out, file)
    } else {
        print_drop_in(out, file, part)
    }
}

#[tactic(auto, using(crate::proofs::Printed::then_all, crate::proofs::Printed::then_part, crate::proofs::Printed::part_more))]
fn print_drop_in<K: Sink>(out: &mut K, file: &str, part: &str) -> Result<(), Failed>
    ensures done { OnOk result (PrintsAll (output K.told K.faults out.old) (output K.told K.faults out.new)
        (file.now ++ codes ".d/" ++ part.now)) }
    ensures failed { OnErr result (PrintsPart (output K.told K.faults out.old) (output K.told K.faults out.new)
        (file.now ++ codes ".d/" ++ part.now)) }
{
    print(out, file)?;
    print(out, ".d/")?;
    print(out, part)
}

// Prints that name and the number of a line.
#[tactic(auto, using(crate::proofs::Printed::then_all, crate::proofs::Printed::then_part, crate::proofs::Printed::part_more))]
fn print_place<K: Sink>(out: &mut K, file: &str, part: &str, line: u32) -> Result<(), Failed>
    ensures done { OnOk result (PrintsAll (output K.told K.faults out.old) (output K.told K.faults out.new)
        (line_text file.now part.now line)) }
    ensures failed { OnErr result (PrintsPart (output K.told K.faults out.old) (output K.told K.faults out.new)
        (line_text file.now part.now line)) }
{
    print_piece(out, file, part)?;
    print(out, ":")?;
    print_number(out, u64::from(line))
}

fn print_number<K: Sink>(out: &mut K, number: u64) -> Result<(), Failed>
    ensures done { OnOk result (PrintsAll (output K.told K.faults out.old) (output K.told K.faults out.new) (decimal number)) }
    ensures failed { OnErr result (PrintsPart (output K.told K.faults out.old) (output K.told K.faults out.new) (decimal number)) }
{
    let mut buffer = Buffer::new();
    print(out, buffer.format(number))
}

// Prints a root hash as lower-case hexadecimal digits.
fn print_hash<K: Sink>(out: &mut K, bytes: &[u8; 32]) -> Result<(), Failed>
    ensures done { OnOk result (PrintsAll (output K.told K.faults out.old) (output K.told K.faults out.new) (encode_lower bytes.now)) }
    ensures failed { OnErr result (PrintsPart (output K.told K.faults out.old) (output K.told K.faults out.new) (encode_lower bytes.now)) }
{
    let mut digits = [0; 64];
    match hex::encode_to_slice(bytes.as_slice(), &mut digits) {
        Ok(()) => out.write(&digits),
        Err(_) => unreachable!(),
    }
}

// Prints a text, or a first part of it where the sink fails.
fn print<K: Sink>(out: &mut K, text: &str) -> Result<(), Failed>
    ensures done { OnOk result (PrintsAll (output K.told K.faults out.old) (output K.told K.faults out.new) text.now) }
    ensures failed { OnErr result (PrintsPart (output K.told K.faults out.old) (output K.told K.faults out.new) text.now) }
{
    out.write(text.as_bytes())
}
