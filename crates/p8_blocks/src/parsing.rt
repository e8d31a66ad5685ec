// Reading a file from its tokens.
ghost use Rattle.std.specs.Prelude.{◌≡◌, ◌≢◌, ℕ, IfOk, IfErr};
ghost use Rattle.p8_tree.specs.declared.places.Place as place;
ghost use Rattle.p8_tree.specs.Sources.{Source};
ghost use Rattle.p8_tree.specs.Proper.{IsProperFile};
ghost use Rattle.p8_grammar.specs.Proper.{AreProper};
ghost use Rattle.p8_tree.specs.Views.{source_of};
ghost use Rattle.p8_tree.specs.declared.refusal.Refusal.TheVariants.{TooNested};
ghost use Rattle.p8_tree.specs.Refusals.{refusal_number};
ghost use Rattle.p8_tree.specs.Faults.{IfRefused};
ghost use Rattle.p8_lines.specs.Tokens.{all_tokens, terms};
ghost use Rattle.p8_blocks.specs.Files.{IsFileWithinLimits, StopsAt, PassesLimits, PassesAt};
ghost use Rattle.p8_blocks.specs.Reading.{Parses, source, fault};
ghost use Rattle.p8_blocks.specs.Refusals.{IsRefused};

use crate::growing::Growing;
use crate::laws::{
    files_are_not_refused, files_are_proper, files_are_read, one_answer, one_refusal,
    refusals_are_read, refusals_pass_limits, refusals_stand_first,
};
use p8_expr::TokenCursor;
use p8_lexer::Tokens;
use p8_tree::{Fault, SourceFile};
use p8_words::Fail;
use std::alloc::Global;

// Reads the lines of a file one after the other.
fn read_lines(alloc: Global, bytes: &[u8], tokens: &Tokens) -> Result<SourceFile, Fail<Fault>>
    ensures read { IfOk result (λ file. Parses (all_tokens bytes.now tokens.now) (source (source_of file))) }
    ensures refused { IfErr result (IfRefused (λ f. Parses (all_tokens bytes.now tokens.now) (fault f.number f.place))) }
{
    let mut file = Growing::new(alloc);
    let mut here = TokenCursor::new(bytes, tokens, 0);
    'lines: while !here.is_at_end() {
        file.line(alloc, &mut here)?;
    }
    Ok(file.finish(alloc)?)
}

/// Reads a file from its tokens, in one pass: gives its tree, or the first refusal and its place.
///
/// `CON`, `VAR`, `OBJ`, `PUB`, `PRI` and `DAT` in column 1 begin a block; what stands before the first
/// of them is a `CON`. The lines of a method are its statements by their columns. Blocks and statements
/// are those of the Propeller Manual v1.2; what it leaves open is this project's profile.
///
/// # Errors
///
/// The first of these refusals, line by line, or `NoMemory`: 6 at a token that can't stand where it
/// does, 9 at floating point and 10 at what the machine doesn't carry out; 7 at an `ELSE` kind, `WHILE`
/// or `UNTIL` with no opener at its column; 8 at an expression higher than 64, and where a line begins
/// that would open one block more than 64, the method counted; 11 at `NEXT` or `QUIT` outside `REPEAT`.
///
/// The first two clauses say line by line what comes: tokens have one answer ([`one_answer`](crate::one_answer)). The others
/// say it by the files that begin so, exactly: tokens are a file within the limits, or have one refusal
/// ([`one_refusal`](crate::one_refusal)).
pub fn parse(alloc: Global, bytes: &[u8], tokens: &Tokens) -> Result<SourceFile, Fail<Fault>>
    ensures lines_read { IfOk result (λ file. Parses (all_tokens bytes.now tokens.now) (source (source_of file))) }
    ensures lines_refused { IfErr result (IfRefused (λ f. Parses (all_tokens bytes.now tokens.now) (fault f.number f.place))) }
    ensures read { IfOk result (λ file. IsFileWithinLimits (source_of file) (all_tokens bytes.now tokens.now)) }
    ensures proper { AreProper (terms (all_tokens bytes.now tokens.now)) → IfOk result (λ file. IsProperFile (source_of file)) }
    ensures one_tree { IfOk result (λ file. (s : Source) → IsFileWithinLimits s (all_tokens bytes.now tokens.now) → s ≡ source_of file) }
    ensures no_file { IfErr result (IfRefused (λ f. (s : Source) → ¬ IsFileWithinLimits s (all_tokens bytes.now tokens.now))) }
    ensures refused { IfErr result (IfRefused (λ f. IsRefused (all_tokens bytes.now tokens.now) f.number f.place)) }
    ensures one_number { IfErr result (IfRefused (λ f. (n : ℕ) (p : place.Place) → IsRefused (all_tokens bytes.now tokens.now) n p → n ≡ f.number)) }
    ensures one_place { IfErr result (IfRefused (λ f. (n : ℕ) (p : place.Place) → IsRefused (all_tokens bytes.now tokens.now) n p → p ≡ f.place)) }
    ensures none_refused { IfOk result (λ file. (n : ℕ) (p : place.Place) → ¬ IsRefused (all_tokens bytes.now tokens.now) n p) }
    ensures stops { IfErr result (IfRefused (λ f. f.number ≢ refusal_number TooNested → StopsAt (all_tokens bytes.now tokens.now) f.number f.place)) }
    ensures passes { IfErr result (IfRefused (λ f. f.number ≡ refusal_number TooNested → PassesLimits (all_tokens bytes.now tokens.now))) }
    ensures passes_there { IfErr result (IfRefused (λ f. f.number ≡ refusal_number TooNested → PassesAt (all_tokens bytes.now tokens.now) f.place)) }
{
    files_are_read();
    files_are_proper();
    one_answer();
    refusals_stand_first();
    refusals_pass_limits();
    refusals_are_read();
    one_refusal();
    files_are_not_refused();
    read_lines(alloc, bytes, tokens)
}
