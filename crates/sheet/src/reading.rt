// Reading a sheet: first its layout as a whole, then the names in turn, then the rule.
ghost use Rattle.std.specs.Prelude.{◌≡◌, List, [], length};
ghost use Rattle.refusal.specs.Answers.{answer};
ghost use Rattle.refusal.specs.declared.Cause.TheVariants.{BadField};
ghost use Rattle.refusal.specs.declared.Layer.TheVariants.{Sheet as AtSheet};
ghost use Rattle.names.specs.Listed.{spelled_names};
ghost use Rattle.fields.specs.Pieces.{parts};
ghost use Rattle.fields.specs.Walked.{bytes_of, remaining};
ghost use Rattle.sheet.specs.declared.order.Due.TheVariants.{NameOrRule};
ghost use Rattle.sheet.specs.Layout.{after, may_end, ordered, orderly};
ghost use Rattle.sheet.specs.Laws.{BySheet};
ghost use Rattle.sheet.specs.Contents.{fronted, front_seen, sheet_read, sheet_seen};

use crate::order::{Due, Kind};
use crate::view::Sheet;
use fields::{Field, Fields};
use names::Names;
use refusal::{Cause, Layer, Refusal};
use rule::Rule;

// The most bytes of a sheet.
pub const MOST_BYTES: usize = 8192;

// A cut field and a refusal are both types of other crates, so no `From` can turn one into the other here.
fn misplaced(place: usize) -> Refusal
    ensures { result ≡ record { cause = BadField; layer = AtSheet; place = place } }
{
    Refusal::new(Cause::BadField, Layer::Sheet, place)
}

impl Due {
    // What is due behind a field.
    fn after(self, field: Field) -> Result<Due, Refusal>
        ensures { answer (λ d. d) result ≡ after self field.entry.tag field.entry.place }
    {
        match (self, Kind::try_from(field.tag)) {
            (Due::NameOrRule, Ok(Kind::Name)) => Ok(Due::NameOrRule),
            (Due::NameOrRule, Ok(Kind::Rule)) => Ok(Due::LeadIn),
            (Due::LeadIn, Ok(Kind::LeadIn)) => Ok(Due::Cycle),
            (Due::Cycle, Ok(Kind::Cycle)) => Ok(Due::LeadIn),
            _ => Err(misplaced(field.place)),
        }
    }

    // Whether the sheet may end at its end.
    fn end(self, stop: usize) -> Result<(), Refusal>
        ensures { answer (λ u. u) result ≡ may_end self stop }
    {
        match self {
            Due::LeadIn => Ok(()),
            Due::NameOrRule | Due::Cycle => Err(misplaced(stop)),
        }
    }
}

// Whether the fields stand in a sheet's order, to the last byte.
fn check_fields(bytes: &[u8]) -> Result<(), Refusal>
    ensures { answer (λ u. u) result ≡ orderly (length bytes.now) NameOrRule (parts bytes.now) }
{
    let mut fields = Fields::new(bytes);
    let mut due = Due::NameOrRule;
    while let Some(field) = fields.next().map_err(|cut| misplaced(cut.place))? {
        due = due.after(field)?;
    }
    due.end(bytes.len())
}

fn check_order(bytes: &[u8]) -> Result<(), Refusal>
    ensures { answer (λ u. u) result ≡ ordered bytes.now }
{
    if bytes.len() > MOST_BYTES {
        return Err(misplaced(MOST_BYTES));
    }
    check_fields(bytes)
}

// Declares the names in turn, up to the rule, and gives the rule's text.
fn read_front<'a>(fields: &mut Fields<'a>, names: &mut Names) -> Result<&'a [u8], Refusal>
    ensures outcome { answer (front_seen fields.new names.new) result ≡ fronted (length (bytes_of fields.old)) (spelled_names names.old) (remaining fields.old) }
    ensures same { bytes_of fields.new ≡ bytes_of fields.old }
{
    while let Some(field) = fields.next().map_err(|cut| misplaced(cut.place))? {
        match Kind::try_from(field.tag) {
            Ok(Kind::Name) => names.declare(field.body)?,
            _ => return Ok(field.body),
        }
    }
    Err(misplaced(fields.bytes.len()))
}

impl Sheet {
    // Reads a sheet, or says what is wrong with it.
    pub fn read(bytes: &[u8]) -> Result<Sheet, Refusal>
        ensures outcome { answer (sheet_seen bytes.now) result ≡ sheet_read bytes.now }
        ensures law { BySheet bytes.now (answer (sheet_seen bytes.now) result) }
    {
        check_order(bytes)?;
        let mut fields = Fields::new(bytes);
        let mut names = Names::none();
        let text = read_front(&mut fields, &mut names)?;
        let rule = Rule::read(&names, text)?;
        Ok(Sheet {
            rule,
            rounds: fields.at,
        })
    }
}
