ghost use Rattle.std.specs.Prelude.{◌≡◌, [], length, IfOk};
ghost use Rattle.tokens.specs.Ahead.{left};
ghost use Rattle.tokens.specs.Tokens.{tokens_of};
ghost use Rattle.forms.specs.Spoken.{spoken_by, Proper};
ghost use Rattle.script.specs.Grammar.{table, read_by, read_line, said};
ghost use Rattle.script.specs.Reading.{Reads, closed, memory_form, object_form, reserve_request, request_by, request, call_form, steps_form, outcome_form, pair, pair_in, cut_form, form_by, some_form, alone};

use super::expect::{Side, any_number, bracket, kind, number, token, word};
use forms::{Form, Pair, Pairs, Request};
use tokens::{Fault, Lexer, Token};

// The form, and the bracket behind it.
fn closing(lexer: &mut Lexer, form: Form) -> Result<Form, Fault>
    ensures { Reads (closed (spoken_by form)) lexer.old lexer.new (said result) }
{
    bracket(lexer, Side::Close)?;
    Ok(form)
}

fn read_memory(lexer: &mut Lexer) -> Result<Form, Fault>
    ensures { Reads memory_form lexer.old lexer.new (said result) }
{
    let kind = kind(lexer)?;
    let lines = number(lexer, 8, 16)?;
    closing(lexer, Form::Memory { kind, lines })
}

fn read_object(lexer: &mut Lexer) -> Result<Form, Fault>
    ensures { Reads object_form lexer.old lexer.new (said result) }
{
    let book = kind(lexer)?;
    closing(lexer, Form::Object { book })
}

fn reserve(lexer: &mut Lexer) -> Result<Request, Fault>
    ensures { Reads reserve_request lexer.old lexer.new result }
{
    let slot = number(lexer, 0, u64::from(u32::MAX))? as u32;
    let container = number(lexer, 0, u64::from(u32::MAX))? as u32;
    Ok(Request::Reserve { slot, container })
}

// What stands behind an operation's word.
fn request_by(lexer: &mut Lexer, text: &[u8], column: usize) -> Result<Request, Fault>
    ensures { Reads (request_by text.now column) lexer.old lexer.new result }
{
    if text == b"add".as_slice() {
        let amount = any_number(lexer)?;
        Ok(Request::Add { amount })
    } else if text == b"read".as_slice() {
        Ok(Request::Read)
    } else if text == b"reserve".as_slice() {
        reserve(lexer)
    } else if text == b"cancel".as_slice() {
        let number = any_number(lexer)?;
        Ok(Request::Cancel { number })
    } else if text == b"holder".as_slice() {
        let slot = any_number(lexer)?;
        Ok(Request::Holder { slot })
    } else {
        Err(Fault::unreadable(column))
    }
}

fn read_request(lexer: &mut Lexer) -> Result<Request, Fault>
    ensures { Reads request lexer.old lexer.new result }
{
    bracket(lexer, Side::Open)?;
    let (text, column) = word(lexer)?;
    let request = request_by(lexer, text, column)?;
    bracket(lexer, Side::Close)?;
    Ok(request)
}

fn read_call(lexer: &mut Lexer) -> Result<Form, Fault>
    ensures { Reads call_form lexer.old lexer.new (said result) }
{
    let station = any_number(lexer)?;
    let request = read_request(lexer)?;
    closing(lexer, Form::Call { station, request })
}

fn read_steps(lexer: &mut Lexer) -> Result<Form, Fault>
    ensures { Reads steps_form lexer.old lexer.new (said result) }
{
    let station = any_number(lexer)?;
    let count = number(lexer, 1, u64::MAX)?;
    closing(lexer, Form::Steps { station, count })
}

fn read_outcome(lexer: &mut Lexer) -> Result<Form, Fault>
    ensures { Reads outcome_form lexer.old lexer.new (said result) }
{
    let run = any_number(lexer)?;
    let station = any_number(lexer)?;
    let number = any_number(lexer)?;
    closing(
        lexer,
        Form::Outcome {
            run,
            station,
            number,
        },
    )
}

// A pair behind its opening bracket.
fn read_pair(lexer: &mut Lexer) -> Result<Pair, Fault>
    ensures { Reads pair lexer.old lexer.new (pair_in result) }
{
    let line = number(lexer, 0, 128)? as u8;
    let kept = number(lexer, 0, 255)? as u8;
    bracket(lexer, Side::Close)?;
    Ok(Pair { line, kept })
}

const MOST_PAIRS: usize = 16;

// Up to 16 pairs and the bracket behind them.
#[tactic(auto, using(crate::proofs::Cutting::cutting))]
fn read_cut(lexer: &mut Lexer) -> Result<Form, Fault>
    ensures { Reads (cut_form 16 []) lexer.old lexer.new (said result) }
{
    let mut pairs = Pairs::new();
    loop {
        let (found, column) = token(lexer)?;
        match found {
            Token::Close => return Ok(Form::Cut(pairs)),
            Token::Open if pairs.count < MOST_PAIRS => pairs.push(read_pair(lexer)?),
            _ => return Err(Fault::unreadable(column)),
        }
    }
}

// What stands behind a form's word.
fn form_by(lexer: &mut Lexer, text: &[u8], column: usize) -> Result<Form, Fault>
    ensures { Reads (form_by text.now column) lexer.old lexer.new (said result) }
{
    if text == b"memory".as_slice() {
        read_memory(lexer)
    } else if text == b"object".as_slice() {
        read_object(lexer)
    } else if text == b"start".as_slice() {
        closing(lexer, Form::Start)
    } else if text == b"rise".as_slice() {
        closing(lexer, Form::Rise)
    } else if text == b"call".as_slice() {
        read_call(lexer)
    } else if text == b"steps".as_slice() {
        read_steps(lexer)
    } else if text == b"outcome".as_slice() {
        read_outcome(lexer)
    } else if text == b"cut".as_slice() {
        read_cut(lexer)
    } else {
        Err(Fault::unreadable(column))
    }
}

fn read_form(lexer: &mut Lexer) -> Result<Form, Fault>
    ensures { Reads some_form lexer.old lexer.new (said result) }
{
    bracket(lexer, Side::Open)?;
    let (text, column) = word(lexer)?;
    form_by(lexer, text, column)
}

// The form, if nothing stands behind it.
fn finish(lexer: &mut Lexer, form: Form) -> Result<Form, Fault>
    ensures { said result ≡ alone (spoken_by form) (left lexer.old) }
{
    match lexer.next().transpose()? {
        None => Ok(form),
        Some((_, column)) => Err(Fault::unreadable(column)),
    }
}

// The form that a line of any length says.
#[tactic(auto, using(crate::proofs::Whole::whole_fault, crate::proofs::Whole::whole_form))]
fn read_whole(line: &[u8]) -> Result<Form, Fault>
    ensures { said result ≡ read_by table [] (length line.now) (tokens_of line.now) }
{
    let mut lexer = Lexer::new(line);
    let form = read_form(&mut lexer)?;
    finish(&mut lexer, form)
}

// The form that a line says. Fault 16 has the column of the first token that does not fit, the one behind the line's end if
// more had to come, and 201 for a line of more than 200 bytes.
#[tactic(auto, using(crate::proofs::Proper::proper))]
pub fn read_line(line: &[u8]) -> Result<Form, Fault>
    ensures answer { said result ≡ read_line line.now }
    ensures proper { IfOk result (λ f. Proper (spoken_by f)) }
{
    if line.len() > 200 {
        return Err(Fault::unreadable(201));
    }
    read_whole(line)
}
