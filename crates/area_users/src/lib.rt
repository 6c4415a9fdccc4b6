// Reserve, Release and Position on the state by value: what each answers, and the state after it.

#![tactic(auto)]

ghost use Rattle.std.specs.Prelude.{◌≡◌, ◌+◌, ◌<◌};
ghost use Rattle.types.specs.Words.{refusal_word, result_word};
ghost use Rattle.types.specs.State.{area_at};
ghost use Rattle.area_users.specs.AreaUsers.{area_reply, at_position, position_word, position_reached};
ghost use Rattle.area_users.specs.AreaUsers.{reserved_reply, released_reply, position_reply};

use types::{Answer, Area, Block, Refusal, State};

// The answer to a message to an area process, and the state after it.
#[derive(Clone, Copy)]
pub struct AreaReply {
    pub answer: Answer,
    pub state: State,
}

// A reply with a result word, a byte count and a block.
pub fn reply(state: State, word: u16, bytes: u16, block: Block) -> AreaReply
    ensures { result ≡ area_reply state word bytes block.0 }
{
    let answer = Answer {
        result: word,
        bytes,
        block,
        entries: 0,
    };
    AreaReply { answer, state }
}

// The same with the result of a call.
pub fn answered(state: State, done: Result<(), Refusal>, bytes: u16, block: Block) -> AreaReply
    ensures { result ≡ area_reply state (result_word done) bytes block.0 }
{
    reply(state, types::result_word(done), bytes, block)
}

// The reply of a message that is refused and leaves the state.
pub fn refused(state: State, refusal: Refusal) -> AreaReply
    ensures { result ≡ area_reply state (refusal_word refusal) 0 0 }
{
    answered(state, Err(refusal), 0, Block(0))
}

// Reserve 2, 3 or 4 of area descriptor j by a sender that is not 0.
pub fn reserve(state: State, j: usize, sender: u16, count: u16) -> AreaReply
    requires { j < 8 }
    ensures { result ≡ reserved_reply state j sender count }
{
    match state::reserve(state::area_at(state, j), sender, count) {
        Ok(next) => answered(state::with_area(state, j, next), Ok(()), 0, Block(0)),
        Err(refusal) => refused(state, refusal),
    }
}

// The result of Position to a block of a file with this live length.
pub fn position_word(length: u16, block: u16) -> Result<(), Refusal>
    ensures { result_word result ≡ position_word block length }
{
    if numbers::negative(block) {
        return Err(Refusal::AreaIllegal);
    }
    if length < block {
        return Err(Refusal::NotUserOrPastEnd);
    }
    Ok(())
}

// The position that it reaches: the block itself, or the end of the file that the block is past.
pub fn position_reached(length: u16, block: u16) -> u16
    ensures { result ≡ position_reached block length }
{
    if numbers::negative(block) {
        return 0;
    }
    block.min(length)
}

// A user of an area process: user entry `user` of area descriptor `area`.
#[derive(Clone, Copy)]
pub struct UserEntry {
    pub state: State,
    pub area: usize,
    pub user: usize,
    ghost inside: { area < 8 },
}

impl UserEntry {
    // The descriptor.
    pub fn area(self) -> Area
        ensures { result ≡ area_at self.state self.area }
    {
        state::area_at(self.state, self.area)
    }

    // The state with position k of the user.
    pub fn at_position(self, k: Block) -> State
        ensures { result ≡ at_position self.state self.area self.user k.0 }
    {
        let next = state::with_position(self.area(), self.user, k);
        state::with_area(self.state, self.area, next)
    }

    // Release by the user.
    pub fn release(self) -> AreaReply
        ensures { result ≡ released_reply self.state self.area self.user }
    {
        let next = state::release(self.area(), self.user);
        answered(
            state::with_area(self.state, self.area, next),
            Ok(()),
            0,
            Block(0),
        )
    }

    // Position by the user.
    pub fn position(self, block: u16) -> AreaReply
        ensures { result ≡ position_reply self.state self.area self.user block }
    {
        let length = self.area().length;
        let reached = position_reached(length, block);
        answered(
            self.at_position(Block(reached)),
            position_word(length, block),
            0,
            Block(0),
        )
    }

    // The reply of a transput that is refused, with a result word, with the user at position k.
    pub fn refused_at(self, word: u16, k: Block) -> AreaReply
        ensures { result ≡ area_reply (at_position self.state self.area self.user k.0) word 0 k.0 }
    {
        reply(self.at_position(k), word, 0, k)
    }

    // The same with the refusal.
    pub fn refused(self, refusal: Refusal, k: Block) -> AreaReply
        ensures { result ≡ area_reply (at_position self.state self.area self.user k.0) (refusal_word refusal) 0 k.0 }
    {
        self.refused_at(refusal.word(), k)
    }

    // The reply of a transput of block k that is done: the user's position is the next block.
    pub fn transferred(self, k: Block) -> AreaReply
        requires { k.0 < 65535 }
        ensures { result ≡ area_reply (at_position self.state self.area self.user (k.0 + 1)) 0 512 k.0 }
    {
        answered(self.at_position(Block(k.0 + 1)), Ok(()), 512, k)
    }
}
