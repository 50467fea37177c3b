// The texts of stubs.

use crate::call::CallKind;
use crate::collection::Collection;
use crate::label::{LabelPlace, LabelUse};
use mlk_report_text::Piece::{At, Bytes, Made, Number, Words};
use mlk_report_text::{push_all, text_of};
use mlk_text::push_sparing;
use std::alloc::{AllocError, Global};

/// The comment on the first line of a stub, and the line below it.
const PREMISE: &str =
    " ; mlock stub: it touches no global and no lock, and changes only $TEST and what is passed by reference
 ; If the real routine does more, add it here: a `yes` rests on this text.
";

/// The text of a stub, before it is read back.
#[derive(Drop)]
pub(crate) struct Draft<'a> {
    pub(crate) routine: &'a [u8],
    pub(crate) text: Vec<u8>,
}

/// A formal of a label.
#[derive(Drop)]
struct Formal {
    name: Vec<u8>,
    is_by_reference: bool,
}

// The name of a formal: that of the given formals, if there are enough, and otherwise a number.
fn formal_name(
    alloc: Global,
    used: &LabelUse<'_>,
    index: usize,
    count: usize,
) -> Result<Vec<u8>, AllocError> {
    if let Some(formals) = used.formals {
        if formals.len() >= count {
            if let Some(name) = formals.get(index) {
                return Vec::from_slice(alloc, name.as_bytes());
            }
        }
    }
    text_of(alloc, &[Words("ARG"), Number(index.saturating_add(1))])
}

// The first `count` formals of a label.
fn formals_of(alloc: Global, used: &LabelUse<'_>, count: usize) -> Result<Vec<Formal>, AllocError> {
    let mut formals = Vec::new(alloc);
    for index in 0..count {
        let formal = Formal {
            name: formal_name(alloc, used, index, count)?,
            is_by_reference: used.is_by_reference(index),
        };
        push_sparing(&mut formals, formal)?;
    }
    Ok(formals)
}

// Appends a formal list.
fn push_list(text: &mut Vec<u8>, formals: &[Formal]) -> Result<(), AllocError> {
    push_all(text, &[Words("(")])?;
    for (index, formal) in formals.iter().enumerate() {
        let comma = if index == 0 { "" } else { "," };
        push_all(text, &[Words(comma), Bytes(formal.name.as_slice())])?;
    }
    push_all(text, &[Words(")")])
}

// Appends a SET of each formal that some call fills by reference, to any value.
fn push_changes(text: &mut Vec<u8>, formals: &[Formal]) -> Result<(), AllocError> {
    let mut before = " SET ";
    for formal in formals {
        if formal.is_by_reference {
            push_all(
                text,
                &[
                    Words(before),
                    Bytes(formal.name.as_slice()),
                    Words("=$RANDOM(100)"),
                ],
            )?;
            before = ",";
        }
    }
    Ok(())
}

// The QUIT with which a label returns to all its calls.
fn quit_of(used: &LabelUse<'_>) -> &'static str {
    if !used.is_called_by(CallKind::Extrinsic) {
        " QUIT"
    } else if used.is_called_by(CallKind::Do) {
        " QUIT:$QUIT $RANDOM(100) QUIT"
    } else {
        " QUIT $RANDOM(100)"
    }
}

// Appends a comment that says at how many places a label is called, and the end of the line.
fn push_calls(text: &mut Vec<u8>, used: &LabelUse<'_>) -> Result<(), AllocError> {
    let Some(first) = used.first_call() else {
        return push_all(text, &[Words(" ; not called\n")]);
    };
    let count = Number(used.calls.len());
    let routine = Bytes(first.position.routine);
    let at = At(first.position.line, first.position.column);
    push_all(text, &[Words(" ; called at "), count, Words(", first ")])?;
    push_all(text, &[routine, Words(" "), at, Words("\n")])
}

// Appends what a label does, from the blank before its first command to the end of its last line.
fn push_body(
    text: &mut Vec<u8>,
    used: &LabelUse<'_>,
    formals: &[Formal],
) -> Result<(), AllocError> {
    push_changes(text, formals)?;
    let quit = quit_of(used);
    if used.is_called_by(CallKind::Do) {
        push_all(text, &[Words(" IF $RANDOM(2)")])?;
        push_calls(text, used)?;
        push_all(text, &[Words(quit), Words("\n")])
    } else {
        push_all(text, &[Words(quit)])?;
        push_calls(text, used)
    }
}

impl<'a> Draft<'a> {
    // Appends the lines of a label, with `comment` behind the label, and perhaps more lines in it.
    fn push_label(
        &mut self,
        label: &[u8],
        comment: &str,
        used: &LabelUse<'_>,
    ) -> Result<(), AllocError> {
        let alloc = *self.text.allocator();
        let count = used.formal_count();
        let formals = formals_of(alloc, used, count.unwrap_or(0))?;
        push_all(&mut self.text, &[Bytes(label)])?;
        if count.is_some() {
            push_list(&mut self.text, formals.as_slice())?;
        }
        push_all(&mut self.text, &[Words(comment)])?;
        push_body(&mut self.text, used, formals.as_slice())
    }
}

/// The texts of the stubs with these labels.
pub(crate) fn drafts_of<'a>(
    alloc: Global,
    collection: &Collection<'a>,
) -> Result<Vec<Draft<'a>>, AllocError> {
    let mut drafts: Vec<Draft<'a>> = Vec::new(alloc);
    for (label, used) in collection.labels.iter() {
        match label.place {
            LabelPlace::First => {
                let mut draft = Draft {
                    routine: label.routine,
                    text: Vec::new(alloc),
                };
                draft.push_label(label.routine, PREMISE, used)?;
                push_sparing(&mut drafts, draft)?;
            }
            LabelPlace::Later(name) => {
                if let Some(draft) = drafts.last_mut() {
                    draft.push_label(name, "", used)?;
                }
            }
        }
    }
    Ok(drafts)
}
