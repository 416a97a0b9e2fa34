ghost use Rattle.std.specs.Prelude.{◌≡◌, ◌<◌, ◌≤◌};
ghost use Rattle.query_model.specs.Generated.{draw_ask, draw_count, draw_delayed, draw_queries, draw_query, draw_ticks, draw_top, prio_of};
ghost use Rattle.query_gen.specs.Drawn.{IsDrawn, IsDrawnFrom, IsDrawnOnto, draw_find_both, draw_find_either, draw_find_without, draw_pair, draw_present};

use crate::draws::Draws;
use fan_base::{Memory, Word, Words};
use line_table::LineTable;
use query_model::{Ask, Expr, Line, Prio, Query};
use std::alloc::{AllocError, Global};

impl Draws {
    /// The lines, with so many queries behind them, and the ticks behind each tenth of these.
    pub(crate) fn queries(
        &mut self,
        alloc: Global,
        count: u32,
        lines: LineTable,
    ) -> Result<LineTable, Memory>
        ensures { IsDrawnOnto (draw_queries 0 count) result lines self.old self.new }
    {
        let mut lines = lines;
        let mut place = 0;
        'queries: while place < count {
            lines = lines.with(self.query(alloc)?)?;
            lines = self.ticks(place, lines)?;
            place += 1;
        }
        Ok(lines)
    }

    fn query(&mut self, alloc: Global) -> Result<Line, AllocError>
        ensures { IsDrawn draw_query result self.old self.new }
    {
        let prio = prio_of(self.number(3));
        let number = self.number(8);
        let (delay, ask) = self.ask(alloc, number)?;
        Ok(Line::Query(Query { delay, prio, ask }))
    }

    /// The lines, with ticks behind them where this is the place of a tenth query.
    fn ticks(&mut self, place: u32, lines: LineTable) -> Result<LineTable, Memory>
        ensures { IsDrawnOnto (draw_ticks place) result lines self.old self.new }
    {
        if place % 10 == 9 {
            let more = self.number(300) as u32;
            return lines.with(Line::Tick(1 + more));
        }
        Ok(lines)
    }

    /// What is asked by a number below 8, and the delay.
    fn ask(&mut self, alloc: Global, number: u64) -> Result<(Option<u32>, Ask), AllocError>
        ensures { IsDrawn (draw_ask number) result self.old self.new }
    {
        match number {
            2 => Ok((None, self.find_either(alloc)?)),
            3 => Ok((None, self.find_without(alloc)?)),
            4 => Ok((None, self.count())),
            5 => Ok((None, self.present(alloc)?)),
            6 => Ok((None, self.top(alloc)?)),
            7 => Ok(self.delayed()),
            _ => Ok((None, self.find_both(alloc)?)),
        }
    }

    fn find_both(&mut self, alloc: Global) -> Result<Ask, AllocError>
        ensures { IsDrawn draw_find_both result self.old self.new }
    {
        let (a, b) = self.two();
        Ok(Ask::Find(Expr::both(alloc, Expr::word(a), Expr::word(b))?))
    }

    fn find_either(&mut self, alloc: Global) -> Result<Ask, AllocError>
        ensures { IsDrawn draw_find_either result self.old self.new }
    {
        let (a, b) = self.two();
        Ok(Ask::Find(Expr::either(alloc, Expr::word(a), Expr::word(b))?))
    }

    fn find_without(&mut self, alloc: Global) -> Result<Ask, AllocError>
        ensures { IsDrawn draw_find_without result self.old self.new }
    {
        let (a, b) = self.two();
        let without = Expr::not(alloc, Expr::word(b))?;
        Ok(Ask::Find(Expr::both(alloc, Expr::word(a), without)?))
    }

    fn present(&mut self, alloc: Global) -> Result<Ask, AllocError>
        ensures { IsDrawn draw_present result self.old self.new }
    {
        let (a, b) = self.two();
        Ok(Ask::Present(Expr::both(alloc, Expr::word(a), Expr::word(b))?))
    }

    fn count(&mut self) -> Ask
        ensures { IsDrawnFrom draw_count result self.old self.new }
    {
        Ask::Count(Expr::word(self.word()))
    }

    fn top(&mut self, alloc: Global) -> Result<Ask, AllocError>
        ensures { IsDrawn draw_top result self.old self.new }
    {
        let more = self.number(10) as u32;
        let (a, b) = self.two();
        let mut words = Vec::new(alloc);
        words.push(a)?;
        words.push(b)?;
        Ok(Ask::Top(1 + more, Words::from_vec(words)))
    }

    fn delayed(&mut self) -> (Option<u32>, Ask)
        ensures { IsDrawnFrom draw_delayed result self.old self.new }
    {
        let more = self.number(1000) as u32;
        (Some(1 + more), self.count())
    }

    fn two(&mut self) -> (Word, Word)
        ensures { IsDrawnFrom draw_pair result self.old self.new }
    {
        let a = self.word();
        let b = self.word();
        (a, b)
    }
}

fn prio_of(number: u64) -> Prio
    ensures { result ≡ prio_of number }
{
    match number {
        0 => Prio::Lo,
        1 => Prio::Mid,
        _ => Prio::Hi,
    }
}
