//! A session takes the replies to the execution of its batch: the first, and those with rows.

ghost use Rattle.std.specs.Prelude.{◌≡◌, IfOk, Err, List, false, map, ℕ};
ghost use Rattle.key_store.specs.Stores.{IsOf};
ghost use Rattle.conversation.specs.Devices.{Devices};
ghost use Rattle.conversation.specs.Sessions as held;
ghost use Rattle.conversation.specs.declared.sessions.Session.{Session};
ghost use Rattle.driver.specs.Accepted.{accepted_answered};
ghost use Rattle.driver.specs.Calls.{Answers, ShowsTurn, Takes, is_end, opens_keys};
ghost use Rattle.driver.specs.Listed.{AreListed};
ghost use Rattle.wire_messages.specs.declared.replies.Reply.TheVariants as reply;

use crate::accepting::{Columns, accept, accepted_columns};
use crate::describing::own_keys;
use crate::opening::open_columns;
use crate::reading::{RowRead, is_row_of, next_row};
use ae_base::faults::SqlFault;
use ae_base::keys::{KeyMeta, KeyPath};
use ae_base::lists::{Duplicate, Seq};
use ae_base::names::Title;
use ae_edge::vaults::Vault;
use conversation::answers::{ExecuteAnswer, RowAnswer};
use conversation::faults::Halt;
use conversation::outcomes::Outcome;
use conversation::sessions::{ColumnType, Session, Turn};
use hmac_kdf::CellKeys;
use key_store::KeyStore;
use std::alloc::{AllocError, Global};
use wire_messages::columns::SentColumn;
use wire_messages::replies::{Done, Header, Reply, RowParts};

fn titles_of(alloc: Global, columns: &[SentColumn<'_>]) -> Result<Seq<Title>, AllocError>
    ensures { IfOk result (λ titles. titles ≡ map (λ c. c.title) columns.now) }
{
    let mut titles = Seq::new(alloc);
    for column in columns {
        titles.push(column.title.to_ruled(alloc)?)?;
    }
    Ok(titles)
}

fn types_of(alloc: Global, columns: &[SentColumn<'_>]) -> Result<Seq<ColumnType>, AllocError>
    ensures { IfOk result
        (λ types. types ≡ map (λ c. record { ty = c.ty; enc = c.enc }) columns.now) }
{
    let mut types = Seq::new(alloc);
    for column in columns {
        types.push(ColumnType {
            ty: column.ty,
            enc: column.enc,
        })?;
    }
    Ok(types)
}

/// What columns show: their titles, their types, and their keys.
#[derive(Drop)]
struct Heading {
    titles: Seq<Title>,
    types: Seq<ColumnType>,
    metas: Seq<KeyMeta>,
}

fn heading_of(alloc: Global, header: &Header<'_>) -> Result<Heading, AllocError>
    ensures titles { IfOk result (λ heading. heading.titles ≡ held.titles_of header.now) }
    ensures types { IfOk result (λ heading. heading.types ≡ held.types_of header.now) }
    ensures metas { IfOk result (λ heading. heading.metas ≡ header.now.keys) }
    ensures listed { AreListed header.now.keys (map (λ c. c.enc) (held.types_of header.now)) }
{
    let metas = own_keys(alloc, header.keys());
    Ok(Heading {
        titles: titles_of(alloc, header.columns())?,
        types: types_of(alloc, header.columns())?,
        metas: metas?,
    })
}

fn show<V: Vault>(
    alloc: Global,
    store: &mut KeyStore,
    vault: &mut V,
    trusted: &[KeyPath],
    header: &Header<'_>,
) -> Result<Turn<ExecuteAnswer>, Halt>
    requires { IsOf (V.seen vault.old).content store.old }
    ensures shows { (beside : Devices)
        → ShowsTurn trusted.now result header.now
        (record beside { vault = V.seen vault.old })
        (record beside { vault = V.seen vault.new }) }
    ensures of_vault { IsOf (V.seen vault.new).content store.new }
{
    let heading = match heading_of(alloc, header) {
        Ok(heading) => heading,
        Err(_) => return Err(Halt::OutOfMemory),
    };
    let opened = match open_columns(
        alloc,
        store,
        vault,
        trusted,
        heading.metas.as_slice(),
        heading.types.as_slice(),
    ) {
        Ok(opened) => opened,
        Err(halt) => return Err(halt),
    };
    match opened {
        Ok(keys) => Ok(Turn {
            answer: ExecuteAnswer::Shows(heading.titles),
            after: Session::Reading {
                columns: heading.types,
                keys,
                count: 0,
            },
        }),
        Err(fault) => Ok(Turn {
            answer: ExecuteAnswer::Skips(fault),
            after: Session::Skipping {
                columns: heading.types,
                count: 0,
            },
        }),
    }
}

fn halted<A>(halt: Halt, session: Session) -> Turn<Result<A, Halt>>
    ensures { result ≡ record { answer = Err halt; after = session } }
{
    Turn {
        answer: Err(halt),
        after: session,
    }
}

fn sent_refused(fault: &SqlFault) -> Turn<Result<ExecuteAnswer, Halt>>
    ensures { (trusted : List (List ℕ)) (now : Devices) → Answers trusted result.answer
        (held.answered Session.Sent (reply.Refused fault.now)) Session.Sent result.after now now }
{
    match fault.copy() {
        Ok(fault) => Turn {
            answer: Ok(ExecuteAnswer::Says(Outcome::Refused(fault))),
            after: Session::Idle,
        },
        Err(_) => halted(Halt::OutOfMemory, Session::Sent),
    }
}

fn sent_ended(done: Done) -> Turn<Result<ExecuteAnswer, Halt>>
    ensures { (trusted : List (List ℕ)) (now : Devices) → Answers trusted result.answer
        (held.answered Session.Sent (reply.Ended done)) Session.Sent result.after now now }
{
    match done {
        Done::Defined => Turn {
            answer: Ok(ExecuteAnswer::Says(Outcome::Defined)),
            after: Session::Idle,
        },
        Done::Changed(count) => Turn {
            answer: Ok(ExecuteAnswer::Says(Outcome::Changed(count))),
            after: Session::Idle,
        },
        Done::Answered(_) => halted(Halt::BadReply, Session::Sent),
    }
}

fn shown<V: Vault>(
    alloc: Global,
    store: &mut KeyStore,
    vault: &mut V,
    trusted: &[KeyPath],
    accepted: &mut Option<Columns>,
    header: &Header<'_>,
) -> Turn<Result<ExecuteAnswer, Halt>>
    requires { IsOf (V.seen vault.old).content store.old }
    ensures answered { (beside : Devices)
        → Answers trusted.now result.answer (held.answered Session.Sent
        (reply.Columns header.now)) Session.Sent
        result.after (record beside { vault = V.seen vault.old })
        (record beside { vault = V.seen vault.new }) }
    ensures of_vault { IsOf (V.seen vault.new).content store.new }
    ensures accepted { accepted.new ≡ accepted_answered result.answer
        (held.answered Session.Sent (reply.Columns header.now)) accepted.old }
{
    let columns = match accepted_columns(alloc, header.columns()) {
        Ok(columns) => columns,
        Err(_) => return halted(Halt::OutOfMemory, Session::Sent),
    };
    match show(alloc, store, vault, trusted, header) {
        Ok(turn) => {
            accept(accepted, columns);
            Turn {
                answer: Ok(turn.answer),
                after: turn.after,
            }
        }
        Err(halt) => halted(halt, Session::Sent),
    }
}

fn sent_answered<V: Vault>(
    alloc: Global,
    store: &mut KeyStore,
    vault: &mut V,
    trusted: &[KeyPath],
    accepted: &mut Option<Columns>,
    reply: &Reply<'_>,
) -> Turn<Result<ExecuteAnswer, Halt>>
    requires { IsOf (V.seen vault.old).content store.old }
    ensures answered { (beside : Devices)
        → Answers trusted.now result.answer
        (held.answered Session.Sent reply.now) Session.Sent result.after
        (record beside { vault = V.seen vault.old })
        (record beside { vault = V.seen vault.new }) }
    ensures of_vault { IsOf (V.seen vault.new).content store.new }
    ensures accepted { accepted.new ≡ accepted_answered result.answer
        (held.answered Session.Sent reply.now) accepted.old }
    ensures kept { opens_keys Session.Sent reply.now ≡ false → store.new ≡ store.old }
{
    match reply {
        Reply::Columns(header) => shown(alloc, store, vault, trusted, accepted, header),
        Reply::Ended(done) => sent_ended(*done),
        Reply::Refused(fault) => sent_refused(fault),
        Reply::Row(_) => halted(Halt::BadReply, Session::Sent),
        Reply::Described(_) => halted(Halt::BadReply, Session::Sent),
    }
}

/// Takes the first reply to a session's request to execute a batch. No key is opened but at its
/// columns; with any other reply, awaited or not, the store stays as it is.
pub fn answered<V: Vault>(
    alloc: Global,
    store: &mut KeyStore,
    vault: &mut V,
    trusted: &[KeyPath],
    accepted: &mut Option<Columns>,
    session: Session,
    reply: &Reply<'_>,
) -> Turn<Result<ExecuteAnswer, Halt>>
    requires { IsOf (V.seen vault.old).content store.old }
    ensures answered { (beside : Devices)
        → Answers trusted.now result.answer (held.answered session reply.now) session result.after
        (record beside { vault = V.seen vault.old })
        (record beside { vault = V.seen vault.new }) }
    ensures of_vault { IsOf (V.seen vault.new).content store.new }
    ensures accepted { accepted.new ≡ accepted_answered result.answer
        (held.answered session reply.now) accepted.old }
    ensures kept { opens_keys session reply.now ≡ false → store.new ≡ store.old }
{
    match session {
        Session::Sent => sent_answered(alloc, store, vault, trusted, accepted, reply),
        Session::Idle => halted(Halt::BadReply, Session::Idle),
        Session::Begun(batch) => halted(Halt::BadReply, Session::Begun(batch)),
        Session::Pending(pending) => halted(Halt::BadReply, Session::Pending(pending)),
        Session::Reading {
            columns,
            keys,
            count,
        } => halted(
            Halt::BadReply,
            Session::Reading {
                columns,
                keys,
                count,
            },
        ),
        Session::Skipping { columns, count } => {
            halted(Halt::BadReply, Session::Skipping { columns, count })
        }
    }
}

/// What a row that was read says, and the session after it.
fn row_told(columns: Seq<ColumnType>, keys: Seq<Option<CellKeys>>, read: RowRead) -> Turn<RowAnswer>
    ensures { result ≡ held.row_read columns keys read.number read.values }
{
    let RowRead { number, values } = read;
    match values {
        Ok(values) => Turn {
            answer: RowAnswer::Row(values),
            after: Session::Reading {
                columns,
                keys,
                count: number,
            },
        },
        Err(fault) => {
            drop(keys);
            Turn {
                answer: RowAnswer::Failed(fault),
                after: Session::Skipping {
                    columns,
                    count: number,
                },
            }
        }
    }
}

fn read_next(
    alloc: Global,
    columns: Seq<ColumnType>,
    keys: Seq<Option<CellKeys>>,
    count: u64,
    row: &RowParts<'_>,
) -> Turn<Result<RowAnswer, Halt>>
    ensures { Takes result.answer
        (held.next_row (Session.Reading columns keys count) (reply.Row row.now))
        (Session.Reading columns keys count) result.after }
{
    match next_row(alloc, columns.as_slice(), keys.as_slice(), count, row) {
        Ok(read) => {
            let turn = row_told(columns, keys, read);
            Turn {
                answer: Ok(turn.answer),
                after: turn.after,
            }
        }
        Err(halt) => halted(
            halt,
            Session::Reading {
                columns,
                keys,
                count,
            },
        ),
    }
}

fn skip_next(
    columns: Seq<ColumnType>,
    count: u64,
    row: &RowParts<'_>,
) -> Turn<Result<RowAnswer, Halt>>
    ensures { Takes result.answer
        (held.next_row (Session.Skipping columns count) (reply.Row row.now))
        (Session.Skipping columns count) result.after }
{
    if !is_row_of(columns.as_slice(), row.atoms()) {
        return halted(Halt::BadReply, Session::Skipping { columns, count });
    }
    match count.checked_add(1) {
        Some(more) => Turn {
            answer: Ok(RowAnswer::Skipped),
            after: Session::Skipping {
                columns,
                count: more,
            },
        },
        None => halted(Halt::OutOfMemory, Session::Skipping { columns, count }),
    }
}

/// Whether a reply is the end of so many rows.
fn ends(done: Done, count: u64) -> bool
    ensures { result ≡ is_end done count }
{
    match done {
        Done::Answered(rows) => rows == count,
        Done::Defined | Done::Changed(_) => false,
    }
}

fn reading_answered(
    alloc: Global,
    columns: Seq<ColumnType>,
    keys: Seq<Option<CellKeys>>,
    count: u64,
    reply: &Reply<'_>,
) -> Turn<Result<RowAnswer, Halt>>
    ensures { Takes result.answer (held.next_row (Session.Reading columns keys count) reply.now)
        (Session.Reading columns keys count) result.after }
{
    match reply {
        Reply::Row(row) => read_next(alloc, columns, keys, count, row),
        Reply::Ended(done) => {
            if ends(*done, count) {
                drop(columns);
                drop(keys);
                return Turn {
                    answer: Ok(RowAnswer::Rows(count)),
                    after: Session::Idle,
                };
            }
            halted(
                Halt::BadReply,
                Session::Reading {
                    columns,
                    keys,
                    count,
                },
            )
        }
        Reply::Described(_) | Reply::Columns(_) | Reply::Refused(_) => halted(
            Halt::BadReply,
            Session::Reading {
                columns,
                keys,
                count,
            },
        ),
    }
}

fn skipping_answered(
    columns: Seq<ColumnType>,
    count: u64,
    reply: &Reply<'_>,
) -> Turn<Result<RowAnswer, Halt>>
    ensures { Takes result.answer (held.next_row (Session.Skipping columns count) reply.now)
        (Session.Skipping columns count) result.after }
{
    match reply {
        Reply::Row(row) => skip_next(columns, count, row),
        Reply::Ended(done) => {
            if ends(*done, count) {
                drop(columns);
                return Turn {
                    answer: Ok(RowAnswer::Over),
                    after: Session::Idle,
                };
            }
            halted(Halt::BadReply, Session::Skipping { columns, count })
        }
        Reply::Described(_) | Reply::Columns(_) | Reply::Refused(_) => {
            halted(Halt::BadReply, Session::Skipping { columns, count })
        }
    }
}

/// Takes the next reply to a session that reads or skips rows.
pub fn row_answered(
    alloc: Global,
    session: Session,
    reply: &Reply<'_>,
) -> Turn<Result<RowAnswer, Halt>>
    ensures { Takes result.answer (held.next_row session reply.now) session result.after }
{
    match session {
        Session::Reading {
            columns,
            keys,
            count,
        } => reading_answered(alloc, columns, keys, count, reply),
        Session::Skipping { columns, count } => skipping_answered(columns, count, reply),
        Session::Idle => halted(Halt::BadReply, Session::Idle),
        Session::Begun(batch) => halted(Halt::BadReply, Session::Begun(batch)),
        Session::Pending(pending) => halted(Halt::BadReply, Session::Pending(pending)),
        Session::Sent => halted(Halt::BadReply, Session::Sent),
    }
}
