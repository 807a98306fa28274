//! The reply lines.

ghost use Rattle.std.specs.Prelude.{◌≡◌, ◌++◌, IfOk, OnOk, codes, string_bytes};
ghost use Rattle.std.specs.List.{flat_map};
ghost use Rattle.wt_program.specs.Text.{answer_word, show_line, indices_text, group_text, word_line, swept_line, live_line, kind_word, no_such_handle_text, no_such_type_text, later_index_text, module_line, build_text, refusal_text, refused_line, line_of, text_of};

use std::alloc::Global;
use wt_env::memory::OutOfMemory;
use wt_registry::live::LiveGroup;
use wt_registry::refusal::BuildRefusal;
use wt_registry::swept::Swept;
use wt_session::reply::{HandleKind, Refusal, Reply};

fn push_made(text: &mut String, handle: u64, index: u32) -> Result<(), OutOfMemory>
    ensures { OnOk result (string_bytes text.new ≡ string_bytes text.old ++ line_of (Reply.TypeMade handle index)) }
{
    writeln!(text, "type {handle} index {index}")?;
    Ok(())
}

fn push_index(text: &mut String, index: u32) -> Result<(), OutOfMemory>
    ensures { OnOk result (string_bytes text.new ≡ string_bytes text.old ++ line_of (Reply.Index index)) }
{
    writeln!(text, "index {index}")?;
    Ok(())
}

/// Adds a line of one word.
fn push_word(text: &mut String, word: &str) -> Result<(), OutOfMemory>
    ensures { OnOk result (string_bytes text.new ≡ string_bytes text.old ++ word_line word.now) }
{
    text.push_str(word)?;
    text.push_str("\n")?;
    Ok(())
}

fn answer_word(is_so: bool) -> &'static str
    ensures { result.now ≡ answer_word is_so }
{
    if is_so { "yes" } else { "no" }
}

/// Adds the line of the text of a type, which has no byte that a line would have to spell otherwise.
fn push_shown(text: &mut String, shown: &str) -> Result<(), OutOfMemory>
    ensures { OnOk result (string_bytes text.new ≡ string_bytes text.old ++ show_line shown.now) }
{
    text.push_str("show ")?;
    push_word(text, shown)
}

fn push_swept(text: &mut String, swept: Swept) -> Result<(), OutOfMemory>
    ensures { OnOk result (string_bytes text.new ≡ string_bytes text.old ++ swept_line swept) }
{
    match swept {
        Swept::Removed(count) => Ok(writeln!(text, "removed {count}")?),
        Swept::Kept => push_word(text, "kept"),
        Swept::Gone => push_word(text, "gone"),
    }
}

fn kind_word(kind: HandleKind) -> &'static str
    ensures { result.now ≡ kind_word kind }
{
    match kind {
        HandleKind::Type => "type",
        HandleKind::Debt => "debt",
        HandleKind::Module => "module",
    }
}

fn push_no_such_handle(
    text: &mut String,
    party: u32,
    kind: HandleKind,
    handle: u32,
) -> Result<(), OutOfMemory>
    ensures { OnOk result (string_bytes text.new ≡ string_bytes text.old ++ no_such_handle_text party kind handle) }
{
    let kind = kind_word(kind);
    write!(text, "NoSuchHandle: party {party} has no {kind} {handle}")?;
    Ok(())
}

fn push_no_such_type(text: &mut String, party: u32, handle: u32, ty: u32) -> Result<(), OutOfMemory>
    ensures { OnOk result (string_bytes text.new ≡ string_bytes text.old ++ no_such_type_text party handle ty) }
{
    write!(
        text,
        "NoSuchHandle: party {party} has no type {handle}.{ty}"
    )?;
    Ok(())
}

/// Adds each index after a blank.
fn push_later(text: &mut String, indices: &[u32]) -> Result<(), OutOfMemory>
    ensures { OnOk result (string_bytes text.new ≡ string_bytes text.old ++ flat_map later_index_text indices.now) }
{
    for index in indices {
        write!(text, " {index}")?;
    }
    Ok(())
}

fn push_indices(text: &mut String, indices: &[u32]) -> Result<(), OutOfMemory>
    ensures { OnOk result (string_bytes text.new ≡ string_bytes text.old ++ indices_text indices.now) }
{
    let Some((first, rest)) = indices.split_first() else {
        return Ok(());
    };
    write!(text, "{first}")?;
    push_later(text, rest)
}

fn push_group(text: &mut String, group: &LiveGroup) -> Result<(), OutOfMemory>
    ensures { OnOk result (string_bytes text.new ≡ string_bytes text.old ++ group_text group.now) }
{
    write!(text, " #{}[", group.number)?;
    push_indices(text, group.indices.as_slice())?;
    text.push_str("]")?;
    Ok(())
}

fn push_module(text: &mut String, handle: u64, indices: &[u32]) -> Result<(), OutOfMemory>
    ensures { OnOk result (string_bytes text.new ≡ string_bytes text.old ++ module_line handle indices.now) }
{
    write!(text, "module {handle} indices")?;
    push_later(text, indices)?;
    text.push_str("\n")?;
    Ok(())
}

fn push_live(text: &mut String, groups: &[LiveGroup]) -> Result<(), OutOfMemory>
    ensures { OnOk result (string_bytes text.new ≡ string_bytes text.old ++ live_line groups.now) }
{
    write!(text, "live {}", groups.len())?;
    for group in groups {
        push_group(text, group)?;
    }
    text.push_str("\n")?;
    Ok(())
}

/// Adds the code of a refused registration, and why it is refused.
fn push_build(text: &mut String, code: &str, refusal: BuildRefusal) -> Result<(), OutOfMemory>
    ensures { OnOk result (string_bytes text.new ≡ string_bytes text.old ++ build_text code.now refusal) }
{
    write!(text, "{code}: {refusal}")?;
    Ok(())
}

fn push_refusal(text: &mut String, refusal: Refusal) -> Result<(), OutOfMemory>
    ensures { OnOk result (string_bytes text.new ≡ string_bytes text.old ++ refusal_text refusal) }
{
    match refusal {
        Refusal::Full(full) => push_build(text, "Full", BuildRefusal::Full(full)),
        Refusal::InvalidModule { place, rule } => {
            let refusal = BuildRefusal::InvalidModule { place, rule };
            push_build(text, "InvalidModule", refusal)
        }
        Refusal::FinalSupertype { supertype } => {
            let refusal = BuildRefusal::FinalSupertype { supertype };
            push_build(text, "FinalSupertype", refusal)
        }
        Refusal::SupertypeMismatch { kind } => {
            let refusal = BuildRefusal::SupertypeMismatch { kind };
            push_build(text, "SupertypeMismatch", refusal)
        }
        Refusal::TooManyFields { fields } => {
            let refusal = BuildRefusal::TooManyFields { fields };
            push_build(text, "TooManyFields", refusal)
        }
        Refusal::TagHasResults { results } => {
            let refusal = BuildRefusal::TagHasResults { results };
            push_build(text, "TagHasResults", refusal)
        }
        Refusal::NoGc => push_build(text, "NoGc", BuildRefusal::NoGc),
        Refusal::NoSuchHandle {
            party,
            kind,
            handle,
        } => push_no_such_handle(text, party, kind, handle),
        Refusal::NoSuchType { party, handle, ty } => push_no_such_type(text, party, handle, ty),
    }
}

fn push_refused(text: &mut String, refusal: &Refusal) -> Result<(), OutOfMemory>
    ensures { OnOk result (string_bytes text.new ≡ string_bytes text.old ++ refused_line refusal.now) }
{
    text.push_str("refused ")?;
    push_refusal(text, *refusal)?;
    text.push_str("\n")?;
    Ok(())
}

/// Adds the line of a reply.
fn push_line(text: &mut String, reply: &Reply) -> Result<(), OutOfMemory>
    ensures { OnOk result (string_bytes text.new ≡ string_bytes text.old ++ line_of reply.now) }
{
    match reply {
        Reply::TypeMade { handle, index } => push_made(text, *handle, *index),
        Reply::Module { handle, indices } => push_module(text, *handle, indices.as_slice()),
        Reply::NoneFound => push_word(text, "none"),
        Reply::Owed => push_word(text, "owed"),
        Reply::Dropped => push_word(text, "dropped"),
        Reply::Swept(swept) => push_swept(text, *swept),
        Reply::Released => push_word(text, "released"),
        Reply::Index(index) => push_index(text, *index),
        Reply::Answer(is_so) => push_word(text, answer_word(*is_so)),
        Reply::Show { text: shown } => push_shown(text, shown.as_str()),
        Reply::Live(groups) => push_live(text, groups.as_slice()),
        Reply::Refused(refusal) => push_refused(text, refusal),
    }
}

/// The lines of all replies, in order.
pub fn text(alloc: Global, replies: &[Reply]) -> Result<String, OutOfMemory>
    ensures { IfOk result (λ text. string_bytes text ≡ text_of replies.now) }
{
    let mut text = String::new(alloc);
    for reply in replies {
        push_line(&mut text, reply)?;
    }
    Ok(text)
}

#[cfg(test)]
mod tests {
    use super::*;
    use std::test::Fail;
    use wt_env::limits::Limit;
    use wt_env::seq::Seq;
    use wt_env::text::Text;
    use wt_env::types::{Kind, VMSharedTypeIndex};
    use wt_registry::place::{Place, Rule};
    use wt_registry::refusal::Full;

    #[test]
    fn writes_one_line_for_each_reply(rt: HostRuntime) -> Result<(), Fail> {
        let alloc = rt.alloc();
        let first = LiveGroup {
            number: 1,
            indices: Seq::from_vec(vec![in alloc; 0]?),
        };
        let second = LiveGroup {
            number: 2,
            indices: Seq::from_vec(vec![in alloc; 1, 2]?),
        };
        let groups = vec![in alloc; first, second]?;
        let full = Full {
            limit: Limit::Groups,
            bound: 1,
            wanted: 2,
        };
        let replies = vec![in alloc;
            Reply::TypeMade {
                handle: 0,
                index: 0
            },
            Reply::Live(Seq::from_vec(groups)),
            Reply::Refused(Refusal::Full(full)),
        ]?;
        let lines = text(alloc, replies.as_slice())?;
        assert_eq!(rt;
            lines.as_str(),
            "type 0 index 0\nlive 2 #1[0] #2[1 2]\nrefused Full: groups 1, wanted 2\n"
        );
        Ok(())
    }

    #[test]
    fn writes_what_handles_answer(rt: HostRuntime) -> Result<(), Fail> {
        let rows = [
            (Reply::NoneFound, "none\n"),
            (Reply::Owed, "owed\n"),
            (Reply::Dropped, "dropped\n"),
            (Reply::Swept(Swept::Removed(12)), "removed 12\n"),
            (Reply::Swept(Swept::Kept), "kept\n"),
            (Reply::Swept(Swept::Gone), "gone\n"),
            (Reply::Answer(true), "yes\n"),
            (Reply::Answer(false), "no\n"),
            (
                Reply::Show {
                    text: Text::from_str(rt.alloc(), "(struct (field (mut i32)))")?,
                },
                "show (struct (field (mut i32)))\n",
            ),
            (
                Reply::Refused(Refusal::NoSuchHandle {
                    party: 2,
                    kind: HandleKind::Type,
                    handle: 3,
                }),
                "refused NoSuchHandle: party 2 has no type 3\n",
            ),
            (
                Reply::Refused(Refusal::NoSuchHandle {
                    party: 15,
                    kind: HandleKind::Debt,
                    handle: 4294967295,
                }),
                "refused NoSuchHandle: party 15 has no debt 4294967295\n",
            ),
        ];
        for (reply, want) in rows {
            let lines = text(rt.alloc(), &[reply])?;
            assert_eq!(rt; lines.as_str(), want);
        }
        Ok(())
    }

    #[test]
    fn writes_which_rule_is_broken(rt: HostRuntime) -> Result<(), Fail> {
        let rows = [
            (
                Rule::Forward,
                "refused InvalidModule: group 1 member 2: forward\n",
            ),
            (
                Rule::SuperOrder,
                "refused InvalidModule: group 1 member 2: super-order\n",
            ),
            (
                Rule::Kind,
                "refused InvalidModule: group 1 member 2: kind\n",
            ),
            (
                Rule::SuperFinal,
                "refused InvalidModule: group 1 member 2: super-final\n",
            ),
            (
                Rule::SuperKind,
                "refused InvalidModule: group 1 member 2: super-kind\n",
            ),
            (
                Rule::SuperMismatch,
                "refused InvalidModule: group 1 member 2: super-mismatch\n",
            ),
            (
                Rule::ExnOpen,
                "refused InvalidModule: group 1 member 2: exn-open\n",
            ),
            (
                Rule::ExnResults,
                "refused InvalidModule: group 1 member 2: exn-results\n",
            ),
            (
                Rule::ExnFields,
                "refused InvalidModule: group 1 member 2: exn-fields\n",
            ),
        ];
        for (rule, want) in rows {
            let place = Place::Member {
                group: 1,
                member: 2,
            };
            let reply = Reply::Refused(Refusal::InvalidModule { place, rule });
            let lines = text(rt.alloc(), &[reply])?;
            assert_eq!(rt; lines.as_str(), want);
        }
        Ok(())
    }

    #[test]
    fn writes_why_a_type_of_a_host_is_refused(rt: HostRuntime) -> Result<(), Fail> {
        let supertype = VMSharedTypeIndex::new(4);
        let rows = [
            (
                Refusal::FinalSupertype { supertype },
                "refused FinalSupertype: cannot create a subtype of a final supertype\n",
            ),
            (
                Refusal::SupertypeMismatch { kind: Kind::Func },
                "refused SupertypeMismatch: function type must match its supertype\n",
            ),
            (
                Refusal::SupertypeMismatch { kind: Kind::Struct },
                "refused SupertypeMismatch: struct fields must match their supertype's fields\n",
            ),
            (
                Refusal::SupertypeMismatch { kind: Kind::Array },
                "refused SupertypeMismatch: array field type must match its supertype's field type\n",
            ),
            (
                Refusal::TooManyFields { fields: 10_001 },
                "refused TooManyFields: attempted to define a struct type with 10001 fields, but that is more than the maximum supported number of fields (10000)\n",
            ),
            (
                Refusal::TagHasResults { results: 1 },
                "refused TagHasResults: Cannot create an exception type from a tag type with results in the signature\n",
            ),
            (
                Refusal::NoGc,
                "refused NoGc: cannot define this type without a GC runtime enabled\n",
            ),
        ];
        for (refusal, want) in rows {
            let lines = text(rt.alloc(), &[Reply::Refused(refusal)])?;
            assert_eq!(rt; lines.as_str(), want);
        }
        Ok(())
    }
}
