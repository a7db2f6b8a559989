// Plays the lines of a script, by themselves or as lists of calls.
use super::answers;
use super::calls::{CallList, MOST_CALLS, MOST_TAKEN};
use super::kinds::AnswerKind;
use super::lines::{Call, Lent, Line, Setting};
use super::player::Player;
use super::writer::Writer;
use machine::Code;

#[derive(Drop)]
pub(crate) struct Playing<'a> {
    player: Player<'a>,
    calls: CallList<'a>,
    writer: Writer<'a>,
    // Whether a state is written after a call or a list of calls. This and the next two a fresh start leaves as they are.
    dump: bool,
    // Whether calls are collected, and not played by themselves.
    collect: bool,
    lent: Lent,
}

impl<'a> Playing<'a> {
    pub(crate) fn new(player: Player<'a>, calls: CallList<'a>, writer: Writer<'a>) -> Playing<'a> {
        Playing {
            player,
            calls,
            writer,
            dump: true,
            collect: false,
            lent: Lent {
                codes: MOST_CALLS,
                counts: MOST_CALLS,
                words: MOST_TAKEN,
            },
        }
    }

    // Puts the state, unless a `dump=0` holds.
    fn put_dump(&mut self) {
        if self.dump {
            answers::put_state(&mut self.writer, &self.player);
        }
    }

    // Makes a call, and puts its answer.
    fn call(&mut self, call: Call) {
        let ran = self.player.call(call);
        let count = matches!(call, Call::Run(_)).then_some(ran.count);
        answers::put_code(&mut self.writer, ran.code, count);
        self.put_dump();
    }

    // Plays the list of calls, and puts its answer.
    fn play_list(&mut self) {
        let mut codes = [Code::Done; MOST_CALLS];
        let mut counts = [0usize; MOST_CALLS];
        let played = self
            .player
            .play(&self.calls, self.lent, &mut codes, &mut counts);
        answers::put_played(&mut self.writer, played);
        let calls = self.calls.calls().iter().zip(&codes).zip(&counts);
        for ((call, code), count) in calls.take(played.unwrap_or(0)) {
            let count = matches!(call, simulator::Call::Run(_)).then_some(*count);
            answers::put_code(&mut self.writer, *code, count);
        }
        self.calls.clear();
        self.put_dump();
    }

    // Whether a line ends the list of calls so far.
    fn is_ended(&self, line: Line) -> bool {
        !self.calls.is_empty()
            && match line {
                Line::PassedOver | Line::Set(Setting::List(..)) => false,
                Line::Call(call) => !self.calls.has_room(call),
                _ => true,
            }
    }

    pub(crate) fn play(&mut self, line: Line) {
        if self.is_ended(line) {
            self.play_list();
        }
        match line {
            Line::PassedOver => {},
            Line::Set(setting) => self.player.set(setting),
            Line::Call(call) if self.collect => self.calls.push(call, &self.player.list),
            Line::Call(call) => self.call(call),
            Line::Dump(on) => self.dump = on,
            Line::Play(on) => self.collect = on,
            Line::Lend(lent) => self.lent = lent,
            Line::Ask(question) => answers::put_answer(&mut self.writer, &self.player, question),
        }
    }

    // Plays the list of calls that the end of the script ends, and writes what is left.
    pub(crate) fn finish(&mut self) {
        if !self.calls.is_empty() {
            self.play_list();
        }
        self.writer.flush();
    }
}
