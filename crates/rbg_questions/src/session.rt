//! A session: the places that play has reached, and what is answered there.
ghost use Rattle.std.specs.Prelude.{◌≡◌, ◌↔◌, ◌+◌, ◌-◌, ◌<◌, ◌≤◌, ◌^◌, [], length, Err, IfErr, IfNone, IfOk, IfSome, IsTrue, OnErr, OnOk, Option, Some, None};
ghost use Rattle.rbg_moves.specs.declared.unsettled.Unsettled.TheVariants.{Heavy, Endless};
ghost use Rattle.rbg_moves.specs.Settling.{IsEndless, MeetsHeavy, Settles};
ghost use Rattle.rbg_questions.specs.declared.question.Question.TheVariants as questions;
ghost use Rattle.rbg_questions.specs.Answering.{AnswersIn, GoesBack, Hears, IsLineRefused, IsRefused, StandsAt, undone};
ghost use Rattle.rbg_questions.specs.Answers.{to_move};
ghost use Rattle.rbg_questions.specs.Limits.{longest_line};
ghost use Rattle.rbg_questions.specs.Questions.{QuestionHasSpelling};
ghost use Rattle.rbg_questions.specs.Sessions.{AbstractSession, HasLedTo};
ghost use Rattle.rbg_moves.specs.Starting.{start_place};
ghost use Rattle.rbg_questions.specs.internal.Codes.{coded_session};
ghost use Rattle.rbg_questions.specs.Places.{AreReached};
ghost use Rattle.rbg_questions.specs.internal.Places.{IsHeardPlace};
ghost use Rattle.rbg_questions.specs.internal.Telling.{Tells};

use crate::answer_writer::{
    StateLines, write_board, write_key, write_matches, write_refusal, write_standing, write_state,
    write_values,
};
use crate::chance::play_matches;
use crate::draw::Draw;
use crate::keys::key_of;
use crate::misfit::misfit_of;
use crate::names_writer::write_names;
use crate::ordering::write_in_order;
use crate::packing::{pack, place_in};
use crate::packing_writer::write_pack;
use crate::play_standing::PlayStanding;
use crate::question::Question;
use crate::question_error::QuestionError;
use crate::question_reader::read_question;
use crate::sampling::write_sample;
use crate::searching::write_search;
use crate::shape_writer::write_shape;
use crate::stepping::{
    count_at, follow, is_in_memory, lead, moves_at, pieces_at, standing_at, standing_of, values_at,
};
use rbg_base::{Memory, Move, Player};
use rbg_moves::{GamePlace, Place, PlayedGame, Unsettled, Workspace};
use rbg_rules::Game;
use std::alloc::Global;
use std::marker::Model;
use std::mem::replace;

/// The most bytes of a line that is read as a question.
pub const MAX_LINE: usize = 65_536;

/// The places that play has reached, from the start on or from the place that was heard of last. Contracts see the game,
/// the place from which the moves count, the one that was heard of last, the last place and those before it.
pub struct Session {
    alloc: Global,
    game: PlayedGame,
    origin: Place,
    heard: Place,
    before: Vec<Place>,
    place: Place,
    workspace: Workspace,
}

impl Model for Session {
    ghost Value = { AbstractSession };

    ghost coded = { coded_session };

    ghost view = { λ s. record { game = s.game; origin = s.origin; heard = s.heard; before = s.before.items; place = s.place } };

    ghost invariant = { λ s. AreReached s.game s.origin s.before.items s.place
        × IsHeardPlace s.game s.origin s.heard };
}

/// Written out, so that letting a session go is one call in the proofs of those who hold one, not a step for each part.
impl Drop for Session {
    fn drop(self) {
        let Session {
            alloc: _,
            game: _,
            origin: _,
            heard: _,
            before: _,
            place: _,
            workspace: _,
        } = self;
    }
}

/// The place to which the keeper's first moves lead.
pub fn first_place(game: &PlayedGame, workspace: &mut Workspace) -> Result<Place, Unsettled>
    ensures place { IfOk result (λ place. Settles game.now (start_place game.now) place) }
    ensures reached { IfOk result (AreReached game.now (start_place game.now) []) }
    ensures heavy { result ≡ Err Heavy → MeetsHeavy game.now (start_place game.now) }
    ensures endless { result ≡ Err Endless → IsEndless game.now (start_place game.now) }
{
    let mut place = game.start()?;
    game.settle(&mut place, workspace)?;
    Ok(place)
}

impl Session {
    /// A session at the place to which the keeper's first moves lead.
    pub fn new(alloc: Global, game: Game) -> Result<Session, Unsettled>
        ensures game { IfOk result (λ session. session.game ≡ game) }
        ensures origin { IfOk result (λ session. session.origin ≡ start_place game) }
        ensures heard { IfOk result (λ session. session.heard ≡ start_place game) }
        ensures before { IfOk result (λ session. session.before ≡ []) }
        ensures place { IfOk result (λ session.
            Settles game (start_place game) session.place) }
        ensures heavy { result ≡ Err Heavy → MeetsHeavy game (start_place game) }
        ensures endless { result ≡ Err Endless → IsEndless game (start_place game) }
    {
        let mut game = PlayedGame::new(alloc, game)?;
        game.weigh()?;
        let mut workspace = Workspace::new(alloc);
        let origin = game.start()?;
        let heard = game.start()?;
        let place = first_place(&game, &mut workspace)?;
        Ok(Session {
            alloc,
            game,
            origin,
            heard,
            before: Vec::new(alloc),
            place,
            workspace,
        })
    }

    /// How many moves of players can be undone.
    pub fn moves_made(&self) -> usize
        ensures count { result ≡ length self.now.before }
        ensures led { HasLedTo self.now.game self.now.origin self.now.before
            self.now.place }
    {
        self.before.len()
    }

    /// Hears a line, without its line feed, and appends the lines of the answer or of the refusal to `out`. Where there
    /// is no memory even for a refusal, nothing has changed.
    pub fn hear(&mut self, line: &[u8], out: &mut Vec<u8>) -> Result<(), Memory>
        ensures hears { OnOk result (Hears self.old line.now self.new out.old.items
            out.new.items) }
        ensures kept { OnErr result (self.new ≡ self.old) }
        ensures out { OnErr result (out.new.items ≡ out.old.items) }
    {
        match self.hear_question(line, out) {
            Ok(()) => Ok(()),
            Err(refusal) => write_refusal(refusal, out),
        }
    }

    /// Answers the question of a line.
    fn hear_question(&mut self, line: &[u8], out: &mut Vec<u8>) -> Result<(), QuestionError>
        ensures hears { OnOk result (Hears self.old line.now self.new out.old.items
            out.new.items) }
        ensures refused { IfErr result (IsLineRefused self.old line.now) }
        ensures kept { OnErr result (self.new ≡ self.old) }
        ensures out { OnErr result (out.new.items ≡ out.old.items) }
    {
        if is_too_long(line) {
            return Err(QuestionError::Long);
        }
        match read_question(line) {
            Some(question) => self.answer(&question, out),
            None => Err(misfit_of(line)),
        }
    }

    /// Answers a question: appends the lines of the answer to `out`. Where the question is refused, nothing has changed.
    pub fn answer(
        &mut self,
        question: &Question<'_>,
        out: &mut Vec<u8>,
    ) -> Result<(), QuestionError>
        requires { QuestionHasSpelling question.now }
        ensures answers { OnOk result (AnswersIn self.old question.now self.new out.old.items
            out.new.items) }
        ensures refused { IfErr result (IsRefused self.old question.now) }
        ensures kept { OnErr result (self.new ≡ self.old) }
        ensures out { OnErr result (out.new.items ≡ out.old.items) }
    {
        match question {
            Question::Moves { max } => self.list_moves(*max, out),
            Question::Make { pairs } => self.make(pairs, out),
            Question::Back { moves } => self.go_back(*moves, out),
            Question::Heard { pairs } => self.hear_move(pairs, out),
            Question::Place => self.tell_place(out),
            Question::State => self.tell_state(out),
            Question::Key => self.tell_key(out),
            Question::Values => self.tell_values(out),
            Question::Board => self.tell_board(out),
            Question::Names => self.tell_names(out),
            Question::Shape => self.tell_shape(out),
            Question::Random { seed, count } => self.play_by_chance(*seed, *count, out),
            Question::Search { seed, count } => self.search_moves(*seed, *count, out),
            Question::Sample { seed, most } => self.play_sample(*seed, *most, out),
            Question::Pack => self.tell_packed(out),
            Question::Unpack { text } => self.stand_at(text, out),
            Question::Quit => Ok(()),
        }
    }

    /// Lists the legal moves: so many of them, or all.
    #[tactic(auto, using(crate::proofs::OutOfMemory::memory_refused))]
    fn list_moves(&mut self, max: Option<u64>, out: &mut Vec<u8>) -> Result<(), QuestionError>
        requires { QuestionHasSpelling (questions.Moves max) }
        ensures answers { OnOk result (AnswersIn self.old (questions.Moves max) self.new
            out.old.items out.new.items) }
        ensures refused { IfErr result (IsRefused self.old (questions.Moves max)) }
        ensures kept { self.new ≡ self.old }
        ensures out { OnErr result (out.new.items ≡ out.old.items) }
    {
        let here = GamePlace::new(&self.game, &self.place);
        let gathered = moves_at(&here, limit_of(max), &mut self.workspace)?;
        is_in_memory(&gathered.moves);
        write_in_order(self.alloc, &gathered.moves, gathered.cut, out)?;
        self.workspace.keep_moves(gathered.moves);
        Ok(())
    }

    /// Makes a move, and the keeper's moves after it.
    #[tactic(auto, using(crate::proofs::OutOfMemory::memory_refused))]
    fn make(&mut self, pairs: &Move, out: &mut Vec<u8>) -> Result<(), QuestionError>
        ensures answers { OnOk result (AnswersIn self.old (questions.Make pairs.now) self.new
            out.old.items out.new.items) }
        ensures refused { IfErr result (IsRefused self.old (questions.Make pairs.now)) }
        ensures kept { OnErr result (self.new ≡ self.old) }
        ensures out { OnErr result (out.new.items ≡ out.old.items) }
    {
        let here = GamePlace::new(&self.game, &self.place);
        let to = lead(&here, pairs, &mut self.workspace)?;
        let there = GamePlace::new(&self.game, &to);
        let standing = standing_at(&there, &mut self.workspace)?;
        self.before.reserve(1)?;
        write_standing(&standing, out)?;
        self.before.push_reserved(replace(&mut self.place, to));
        Ok(())
    }

    /// Hears a move, and stands where it leads.
    #[tactic(auto, using(crate::proofs::OutOfMemory::memory_refused))]
    fn hear_move(&mut self, pairs: &Move, out: &mut Vec<u8>) -> Result<(), QuestionError>
        ensures answers { OnOk result (AnswersIn self.old (questions.Heard pairs.now) self.new
            out.old.items out.new.items) }
        ensures refused { IfErr result (IsRefused self.old (questions.Heard pairs.now)) }
        ensures kept { OnErr result (self.new ≡ self.old) }
        ensures out { OnErr result (out.new.items ≡ out.old.items) }
    {
        let from = GamePlace::new(&self.game, &self.heard);
        let heard = follow(&from, pairs, &mut self.workspace)?;
        let there = GamePlace::new(&self.game, &heard);
        let standing = standing_at(&there, &mut self.workspace)?;
        let place = self.workspace.copy_of(&heard)?;
        write_standing(&standing, out)?;
        self.before.clear();
        self.workspace.keep(replace(&mut self.heard, heard));
        self.workspace.keep(replace(&mut self.place, place));
        Ok(())
    }

    /// Undoes moves.
    #[tactic(auto, using(crate::proofs::OutOfMemory::memory_refused))]
    fn go_back(&mut self, moves: Option<u64>, out: &mut Vec<u8>) -> Result<(), QuestionError>
        requires { QuestionHasSpelling (questions.Back moves) }
        ensures answers { OnOk result (AnswersIn self.old (questions.Back moves) self.new
            out.old.items out.new.items) }
        ensures refused { IfErr result (IsRefused self.old (questions.Back moves)) }
        ensures kept { OnErr result (self.new ≡ self.old) }
        ensures out { OnErr result (out.new.items ≡ out.old.items) }
    {
        let many = count_of(moves);
        let Some(index) = self.index_before(many) else {
            return Err(QuestionError::Start);
        };
        let player = self.player_before(index);
        write_standing(&PlayStanding::ToMove { player }, out)?;
        self.return_to(index);
        Ok(())
    }

    /// The index of the place before the last so many moves, if so many were made.
    fn index_before(&self, many: u64) -> Option<usize>
        requires { 0 < many }
        ensures found { IfSome result (λ index. (index < length self.now.before)
            × (length self.now.before - index ≡ many)) }
        ensures none { IfNone result (length self.now.before < many) }
    {
        let made = self.before.len() as u64;
        if made < many {
            return None;
        }
        Some((made - many) as usize)
    }

    /// The player who was to move before one of the moves.
    fn player_before(&self, index: usize) -> Player
        requires { index < length self.now.before }
        ensures { (new : AbstractSession) → GoesBack self.now (length self.now.before - index) new
            → StandsAt new.game new.place (to_move result) }
    {
        self.before[index].state.player()
    }

    /// Stands again where play stood before one of the moves.
    fn return_to(&mut self, index: usize)
        requires { index < length self.old.before }
        ensures { GoesBack self.old (length self.old.before - index) self.new }
    {
        self.before.truncate(index + 1);
        if let Some(place) = self.before.pop() {
            self.place = place;
        }
    }

    #[tactic(auto, using(crate::proofs::OutOfMemory::memory_refused))]
    fn tell_place(&mut self, out: &mut Vec<u8>) -> Result<(), QuestionError>
        ensures answers { OnOk result (AnswersIn self.old questions.Place self.new out.old.items
            out.new.items) }
        ensures refused { IfErr result (IsRefused self.old questions.Place) }
        ensures kept { self.new ≡ self.old }
        ensures out { OnErr result (out.new.items ≡ out.old.items) }
    {
        let here = GamePlace::new(&self.game, &self.place);
        let standing = standing_at(&here, &mut self.workspace)?;
        write_standing(&standing, out)?;
        Ok(())
    }

    #[tactic(auto, using(crate::proofs::OutOfMemory::memory_refused))]
    fn tell_state(&mut self, out: &mut Vec<u8>) -> Result<(), QuestionError>
        ensures answers { OnOk result (AnswersIn self.old questions.State self.new out.old.items
            out.new.items) }
        ensures refused { IfErr result (IsRefused self.old questions.State) }
        ensures kept { self.new ≡ self.old }
        ensures out { OnErr result (out.new.items ≡ out.old.items) }
    {
        let here = GamePlace::new(&self.game, &self.place);
        let count = count_at(&here, &mut self.workspace)?;
        let standing = standing_of(&here, count);
        let key = key_of(&self.place);
        let state = StateLines {
            count,
            key,
            standing: &standing,
            pieces: pieces_at(&self.place),
            values: values_at(&self.place),
        };
        write_state(&state, out)?;
        Ok(())
    }

    #[tactic(auto, using(crate::proofs::OutOfMemory::memory_refused))]
    fn tell_key(&self, out: &mut Vec<u8>) -> Result<(), QuestionError>
        ensures { Tells self.now questions.Key out.old.items out.new.items result }
    {
        write_key(key_of(&self.place), out)?;
        Ok(())
    }

    #[tactic(auto, using(crate::proofs::OutOfMemory::memory_refused))]
    fn tell_values(&self, out: &mut Vec<u8>) -> Result<(), QuestionError>
        ensures { Tells self.now questions.Values out.old.items out.new.items result }
    {
        write_values(values_at(&self.place), out)?;
        Ok(())
    }

    #[tactic(auto, using(crate::proofs::OutOfMemory::memory_refused))]
    fn tell_board(&self, out: &mut Vec<u8>) -> Result<(), QuestionError>
        ensures { Tells self.now questions.Board out.old.items out.new.items result }
    {
        write_board(pieces_at(&self.place), out)?;
        Ok(())
    }

    #[tactic(auto, using(crate::proofs::OutOfMemory::memory_refused))]
    fn tell_names(&self, out: &mut Vec<u8>) -> Result<(), QuestionError>
        ensures { Tells self.now questions.Names out.old.items out.new.items result }
    {
        write_names(self.game.as_game(), out)?;
        Ok(())
    }

    #[tactic(auto, using(crate::proofs::OutOfMemory::memory_refused))]
    fn tell_shape(&self, out: &mut Vec<u8>) -> Result<(), QuestionError>
        ensures { Tells self.now questions.Shape out.old.items out.new.items result }
    {
        write_shape(self.game.as_game(), out)?;
        Ok(())
    }

    #[tactic(auto, using(crate::proofs::OutOfMemory::memory_refused))]
    fn tell_packed(&self, out: &mut Vec<u8>) -> Result<(), QuestionError>
        ensures { Tells self.now questions.Pack out.old.items out.new.items result }
    {
        let here = GamePlace::new(&self.game, &self.place);
        let bytes = pack(self.alloc, &here)?;
        write_pack(self.alloc, bytes.as_slice(), out)?;
        Ok(())
    }

    /// Stands at the place of these digits.
    #[tactic(auto, using(crate::proofs::OutOfMemory::memory_refused))]
    fn stand_at(&mut self, text: &[u8], out: &mut Vec<u8>) -> Result<(), QuestionError>
        ensures answers { OnOk result (AnswersIn self.old (questions.Unpack text.entry) self.new
            out.old.items out.new.items) }
        ensures refused { IfErr result (IsRefused self.old (questions.Unpack text.entry)) }
        ensures kept { OnErr result (self.new ≡ self.old) }
        ensures out { OnErr result (out.new.items ≡ out.old.items) }
    {
        let place = place_in(self.alloc, &self.game, text)?;
        let there = GamePlace::new(&self.game, &place);
        let standing = standing_at(&there, &mut self.workspace)?;
        let origin = self.workspace.copy_of(&place)?;
        let heard = self.workspace.copy_of(&place)?;
        write_standing(&standing, out)?;
        self.before.clear();
        self.workspace.keep(replace(&mut self.origin, origin));
        self.workspace.keep(replace(&mut self.heard, heard));
        self.workspace.keep(replace(&mut self.place, place));
        Ok(())
    }

    /// Plays matches by chance after each legal move.
    fn search_moves(
        &mut self,
        seed: u64,
        count: u64,
        out: &mut Vec<u8>,
    ) -> Result<(), QuestionError>
        requires { QuestionHasSpelling (questions.Search seed count) }
        ensures answers { OnOk result (AnswersIn self.old (questions.Search seed count) self.new
            out.old.items out.new.items) }
        ensures refused { IfErr result (IsRefused self.old (questions.Search seed count)) }
        ensures kept { self.new ≡ self.old }
        ensures out { OnErr result (out.new.items ≡ out.old.items) }
    {
        let here = GamePlace::new(&self.game, &self.place);
        write_search(&here, Draw { seed, count }, &mut self.workspace, out)
    }

    /// Plays one match by chance from where play stands.
    fn play_sample(&mut self, seed: u64, most: u64, out: &mut Vec<u8>) -> Result<(), QuestionError>
        requires { QuestionHasSpelling (questions.Sample seed most) }
        ensures answers { OnOk result (AnswersIn self.old (questions.Sample seed most) self.new
            out.old.items out.new.items) }
        ensures refused { IfErr result (IsRefused self.old (questions.Sample seed most)) }
        ensures kept { self.new ≡ self.old }
        ensures out { OnErr result (out.new.items ≡ out.old.items) }
    {
        let here = GamePlace::new(&self.game, &self.place);
        let draw = Draw { seed, count: most };
        write_sample(&here, draw, &mut self.workspace, out)
    }

    /// Plays matches by chance from where play stands.
    #[tactic(auto, using(crate::proofs::OutOfMemory::memory_refused))]
    fn play_by_chance(
        &mut self,
        seed: u64,
        count: u64,
        out: &mut Vec<u8>,
    ) -> Result<(), QuestionError>
        requires { QuestionHasSpelling (questions.Random seed count) }
        ensures answers { OnOk result (AnswersIn self.old (questions.Random seed count) self.new
            out.old.items out.new.items) }
        ensures refused { IfErr result (IsRefused self.old (questions.Random seed count)) }
        ensures kept { self.new ≡ self.old }
        ensures out { OnErr result (out.new.items ≡ out.old.items) }
    {
        let here = GamePlace::new(&self.game, &self.place);
        let draw = Draw { seed, count };
        let tallies = play_matches(self.alloc, &here, draw, &mut self.workspace)?;
        write_matches(count, tallies.as_slice(), out)?;
        Ok(())
    }
}

/// Whether a line has more bytes than a question may have.
fn is_too_long(line: &[u8]) -> bool
    ensures { IsTrue result ↔ (longest_line < length line.now) }
{
    line.len() > MAX_LINE
}

/// How many moves a question undoes.
fn count_of(moves: Option<u64>) -> u64
    requires { QuestionHasSpelling (questions.Back moves) }
    ensures count { result ≡ undone moves }
    ensures some { 0 < result }
{
    match moves {
        None => 1,
        Some(many) => many,
    }
}

/// The most moves that are listed. No list in memory is as long as the greatest number, which stands for all moves.
fn limit_of(max: Option<u64>) -> usize
    requires { QuestionHasSpelling (questions.Moves max) }
    ensures some { 0 < result }
    ensures asked { IfSome max (λ most. result ≡ most) }
    ensures all { IfNone max (2 ^ 63 ≤ result) }
{
    match max {
        Some(most) => most as usize,
        None => usize::MAX,
    }
}
