//! The kinds of lines. Each has one function, which reads the fields that its grammar names and the end of the line
//! before it takes memory for texts and lists. The first word is looked for in groups of a few kinds.
ghost use Rattle.std.specs.Prelude.{◌≤◌, length, IsUtf8};
ghost use Rattle.notifyd.specs.Fault.{IsRead};
ghost use Rattle.notifyd.specs.Grammar.{user_line, bot_line, group_line, member_line, channel_line, subscribe_line, send_line, direct_line, delete_line, read_line, message_reading, fields_reading};

use crate::fields::Fields;
use crate::line::{Line, LineFault, MAX_LINE};
use crate::preference_kinds::read_preference;
use chat_model::{ChannelId, GroupId, MessageId, Request, UserId};
use std::alloc::Global;

/// Reads a line of fields: one of who is there and who belongs where, or else another one.
#[tactic(auto, unfolding(crate::specs::Grammar::fields_reading))]
pub fn read_fields(alloc: Global, line: &[u8]) -> Result<Line, LineFault>
    requires small { length line.now ≤ MAX_LINE }
    requires utf8 { IsUtf8 line.now }
    ensures { IsRead (fields_reading line.now) result }
{
    let mut fields = Fields::new(line);
    let kind = fields.next_word();
    if kind.bytes == b"user".as_slice() {
        read_user(alloc, &mut fields)
    } else if kind.bytes == b"bot".as_slice() {
        read_bot(alloc, &mut fields)
    } else if kind.bytes == b"group".as_slice() {
        read_group(alloc, &mut fields)
    } else if kind.bytes == b"member".as_slice() {
        read_member(&mut fields)
    } else if kind.bytes == b"channel".as_slice() {
        read_channel(alloc, &mut fields)
    } else if kind.bytes == b"sub".as_slice() {
        read_subscribe(&mut fields)
    } else {
        read_message(alloc, line)
    }
}

// Reads a line by which a message is sent, deleted or read, or else another one that adds nothing.
#[tactic(auto, unfolding(crate::specs::Grammar::message_reading))]
fn read_message(alloc: Global, line: &[u8]) -> Result<Line, LineFault>
    requires small { length line.now ≤ MAX_LINE }
    requires utf8 { IsUtf8 line.now }
    ensures { IsRead (message_reading line.now) result }
{
    let mut fields = Fields::new(line);
    let kind = fields.next_word();
    if kind.bytes == b"send".as_slice() {
        read_send(alloc, &mut fields)
    } else if kind.bytes == b"dm".as_slice() {
        read_direct(alloc, &mut fields)
    } else if kind.bytes == b"delete".as_slice() {
        read_delete(&mut fields)
    } else if kind.bytes == b"read".as_slice() {
        read_read(alloc, &mut fields)
    } else {
        read_preference(alloc, line)
    }
}

#[tactic(auto, unfolding(crate::specs::Grammar::user_line))]
fn read_user(alloc: Global, fields: &mut Fields<'_>) -> Result<Line, LineFault>
    ensures { IsRead (user_line fields.old.line fields.old.place) result }
{
    let name = fields.string()?;
    fields.end()?;
    Ok(Line::Asked(Request::AddUser {
        name: name.text(alloc)?,
        bot: false,
    }))
}

#[tactic(auto, unfolding(crate::specs::Grammar::bot_line))]
fn read_bot(alloc: Global, fields: &mut Fields<'_>) -> Result<Line, LineFault>
    ensures { IsRead (bot_line fields.old.line fields.old.place) result }
{
    let name = fields.string()?;
    fields.end()?;
    Ok(Line::Asked(Request::AddUser {
        name: name.text(alloc)?,
        bot: true,
    }))
}

#[tactic(auto, unfolding(crate::specs::Grammar::group_line))]
fn read_group(alloc: Global, fields: &mut Fields<'_>) -> Result<Line, LineFault>
    ensures { IsRead (group_line fields.old.line fields.old.place) result }
{
    let name = fields.string()?;
    let members = fields.list()?;
    fields.end()?;
    Ok(Line::Asked(Request::AddGroup {
        name: name.text(alloc)?,
        members: members.users(alloc)?,
    }))
}

#[tactic(auto, unfolding(crate::specs::Grammar::member_line))]
fn read_member(fields: &mut Fields<'_>) -> Result<Line, LineFault>
    ensures { IsRead (member_line fields.old.line fields.old.place) result }
{
    let group = GroupId(fields.number()?);
    let user = UserId(fields.number()?);
    let on = fields.switch()?;
    fields.end()?;
    Ok(Line::Asked(Request::Member { group, user, on }))
}

#[tactic(auto, unfolding(crate::specs::Grammar::channel_line))]
fn read_channel(alloc: Global, fields: &mut Fields<'_>) -> Result<Line, LineFault>
    ensures { IsRead (channel_line fields.old.line fields.old.place) result }
{
    let name = fields.string()?;
    fields.end()?;
    Ok(Line::Asked(Request::AddChannel {
        name: name.text(alloc)?,
    }))
}

#[tactic(auto, unfolding(crate::specs::Grammar::subscribe_line))]
fn read_subscribe(fields: &mut Fields<'_>) -> Result<Line, LineFault>
    ensures { IsRead (subscribe_line fields.old.line fields.old.place) result }
{
    let user = UserId(fields.number()?);
    let channel = ChannelId(fields.number()?);
    let on = fields.switch()?;
    fields.end()?;
    Ok(Line::Asked(Request::Subscribe { user, channel, on }))
}

#[tactic(auto, unfolding(crate::specs::Grammar::send_line))]
fn read_send(alloc: Global, fields: &mut Fields<'_>) -> Result<Line, LineFault>
    ensures { IsRead (send_line fields.old.line fields.old.place) result }
{
    let sender = UserId(fields.number()?);
    let channel = ChannelId(fields.number()?);
    let topic = fields.string()?;
    let text = fields.string()?;
    fields.end()?;
    Ok(Line::Asked(Request::Send {
        sender,
        channel,
        topic: topic.text(alloc)?,
        text: text.text(alloc)?,
    }))
}

#[tactic(auto, unfolding(crate::specs::Grammar::direct_line))]
fn read_direct(alloc: Global, fields: &mut Fields<'_>) -> Result<Line, LineFault>
    ensures { IsRead (direct_line fields.old.line fields.old.place) result }
{
    let sender = UserId(fields.number()?);
    let to = fields.numbers()?;
    let text = fields.string()?;
    fields.end()?;
    Ok(Line::Asked(Request::Direct {
        sender,
        to: to.users(alloc)?,
        text: text.text(alloc)?,
    }))
}

#[tactic(auto, unfolding(crate::specs::Grammar::delete_line))]
fn read_delete(fields: &mut Fields<'_>) -> Result<Line, LineFault>
    ensures { IsRead (delete_line fields.old.line fields.old.place) result }
{
    let user = UserId(fields.number()?);
    let message = MessageId(fields.number()?);
    fields.end()?;
    Ok(Line::Asked(Request::Delete { user, message }))
}

#[tactic(auto, unfolding(crate::specs::Grammar::read_line))]
fn read_read(alloc: Global, fields: &mut Fields<'_>) -> Result<Line, LineFault>
    ensures { IsRead (read_line fields.old.line fields.old.place) result }
{
    let user = UserId(fields.number()?);
    let messages = fields.numbers()?;
    fields.end()?;
    Ok(Line::Asked(Request::Read {
        user,
        messages: messages.messages(alloc)?,
    }))
}
