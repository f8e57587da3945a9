//! What a cursor's item is replied as.
ghost use Rattle.std.specs.Prelude.{◌≡◌, ◌+◌, true, IfOk, IsTrue, List, map};
ghost use Rattle.ml_list_desk.specs.inside.Standing.{are_cursors_within, cursor_of, decls_of};
ghost use Rattle.ml_search.specs.Operations.{is_reply_after, Log, next, opened_lists};
ghost use Rattle.ml_search.specs.Replay.{item_reply, member};
ghost use Rattle.ml_search.specs.Seen.{reply_seen};

use crate::list_cursor::ListCursor;
use crate::plain_list::PlainList;
use ml_search::Reply;
use std::alloc::{AllocError, Global};

/// The reply to a question for an item of a cursor: a copy of its term, or that there is none.
pub(crate) fn item_reply(
    alloc: Global,
    lists: &[PlainList],
    cursors: &[ListCursor],
    c: u32,
    i: u32,
) -> Result<Reply, AllocError>
    requires { are_cursors_within lists.now cursors.now ≡ true }
    ensures same { IfOk result (λ reply.
        reply_seen reply ≡ item_reply (member (map (cursor_of lists.now) cursors.now) c i)) }
    ensures kind { IfOk result (λ reply. (log : Log) →
        opened_lists log ≡ map (λ cursor. cursor.list) cursors.now →
        IsTrue (is_reply_after (decls_of lists.now) log (next c i) (reply_seen reply))) }
{
    let Some(cursor) = cursors.get(c as usize) else {
        return Ok(Reply::End);
    };
    let Some(number) = cursor.members.as_slice().get(i as usize) else {
        return Ok(Reply::End);
    };
    let list = &lists[cursor.list as usize];
    Ok(Reply::Item(list.item(*number).term.copy_of(alloc)?))
}
