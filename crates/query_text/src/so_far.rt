ghost use Rattle.std.specs.Prelude.{◌≡◌, ◌+◌, ◌*◌, ◌++◌, ◌∷◌, [], Ok, Err, OnOk, IfErr, IfOk, nat_lt, nat_le};
ghost use Rattle.std.specs.List.{list_any, count_by, sum_by};
ghost use Rattle.query_model.specs.Lines.{doc_room, query_room, is_query, has_id, is_doc, ticks_of};
ghost use Rattle.query_text.specs.Tracks.{HasRoom, tick_room};

use crate::ids::Ids;
use fan_base::Doc;
use line_table::LineTable;
use query_model::limits::{MOST_DOCUMENTS, MOST_QUERIES, MOST_TASKS, MOST_TICKS};
use query_model::{BadKind, InputFault, Limit, Line, Query};
use std::alloc::Global;
use std::marker::Model;

/// The lines read so far, and what is to be known of them where the next line is checked.
#[derive(Drop)]
pub struct SoFar {
    lines: LineTable,
    ids: Ids,
    documents: usize,
    queries: usize,
    ticks: u32,
}

impl Model for SoFar {
    ghost use Rattle.std.specs.Prelude.{List};
    ghost use Rattle.query_model.specs.declared.line.Line.{Line};
    ghost use Rattle.query_text.specs.Tracks.{Tracks};

    ghost Value = { List Line };

    ghost view = { λ s. s.lines };

    ghost invariant = { Tracks };

    ghost use Rattle.query_grammar.specs.contracts.expr.Expr as expr;
    ghost use Rattle.std.specs.Coded.{codes};

    ghost coded = { Prim.hlevel (codes, expr.the_row.coded) };
}

impl SoFar {
    /// No lines.
    pub fn new(alloc: Global) -> Self
        ensures { result ≡ [] }
    {
        SoFar {
            lines: LineTable::new(alloc),
            ids: Ids::new(alloc),
            documents: 0,
            queries: 0,
            ticks: 0,
        }
    }

    /// The lines, their documents by numbers.
    pub fn into_table(self) -> LineTable
        ensures { result ≡ self }
    {
        let SoFar { lines, .. } = self;
        lines
    }

    /// Whether there is room for a document with this id.
    pub fn doc_room(&self, id: u32) -> Result<(), BadKind>
        ensures { result ≡ doc_room self.now id }
    {
        if self.ids.has(id) {
            return Err(BadKind::DuplicateDoc);
        }
        if self.documents >= MOST_DOCUMENTS {
            return Err(BadKind::Limit(Limit::Documents));
        }
        Ok(())
    }

    /// Whether there is room for a query, over so many shards.
    pub fn query_room(&self, shards: u32) -> Result<(), BadKind>
        ensures { result ≡ query_room shards self.now }
    {
        let queries = self.queries;
        if queries >= MOST_QUERIES {
            return Err(BadKind::Limit(Limit::Queries));
        }
        if (queries as u64 + 1) * u64::from(shards) > MOST_TASKS {
            return Err(BadKind::Limit(Limit::Tasks));
        }
        Ok(())
    }

    /// Whether there is room for so many ticks.
    pub fn tick_room(&self, ticks: u32) -> Result<(), BadKind>
        ensures { result ≡ tick_room self.now ticks }
    {
        if u64::from(self.ticks) + u64::from(ticks) > u64::from(MOST_TICKS) {
            return Err(BadKind::Limit(Limit::Ticks));
        }
        Ok(())
    }

    /// The lines with one more, for which there is room.
    pub fn with(self, line: Line) -> Result<SoFar, InputFault>
        requires { HasRoom self line }
        ensures ok { IfOk result (λ more. more ≡ self ++ line ∷ []) }
        ensures err { IfErr result (λ fault. fault ≡ InputFault.Memory) }
    {
        match line {
            Line::Doc(doc) => self.with_doc(doc),
            Line::Query(query) => self.with_query(query),
            Line::Tick(ticks) => self.with_ticks(ticks),
            Line::Cancel(number) => self.with_cancel(number),
        }
    }

    fn with_doc(self, doc: Doc) -> Result<SoFar, InputFault>
        requires { HasRoom self (Line.Doc doc) }
        ensures ok { IfOk result (λ more. more ≡ self ++ Line.Doc doc ∷ []) }
        ensures err { IfErr result (λ fault. fault ≡ InputFault.Memory) }
    {
        let SoFar {
            lines,
            mut ids,
            documents,
            queries,
            ticks,
        } = self;
        ids.put(doc.id)?;
        let lines = lines.with(Line::Doc(doc))?;
        let many = lines.len();
        prove!(documents < many);
        Ok(SoFar {
            lines,
            ids,
            documents: documents + 1,
            queries,
            ticks,
        })
    }

    fn with_query(self, query: Query) -> Result<SoFar, InputFault>
        ensures ok { IfOk result (λ more. more ≡ self ++ Line.Query query ∷ []) }
        ensures err { IfErr result (λ fault. fault ≡ InputFault.Memory) }
    {
        let SoFar {
            lines,
            ids,
            documents,
            queries,
            ticks,
        } = self;
        let lines = lines.with(Line::Query(query))?;
        let many = lines.len();
        prove!(queries < many);
        Ok(SoFar {
            lines,
            ids,
            documents,
            queries: queries + 1,
            ticks,
        })
    }

    fn with_ticks(self, more: u32) -> Result<SoFar, InputFault>
        requires { HasRoom self (Line.Tick more) }
        ensures ok { IfOk result (λ behind. behind ≡ self ++ Line.Tick more ∷ []) }
        ensures err { IfErr result (λ fault. fault ≡ InputFault.Memory) }
    {
        let SoFar {
            lines,
            ids,
            documents,
            queries,
            ticks,
        } = self;
        let lines = lines.with(Line::Tick(more))?;
        Ok(SoFar {
            lines,
            ids,
            documents,
            queries,
            ticks: ticks + more,
        })
    }

    fn with_cancel(self, number: u32) -> Result<SoFar, InputFault>
        ensures ok { IfOk result (λ more. more ≡ self ++ Line.Cancel number ∷ []) }
        ensures err { IfErr result (λ fault. fault ≡ InputFault.Memory) }
    {
        let SoFar {
            lines,
            ids,
            documents,
            queries,
            ticks,
        } = self;
        let lines = lines.with(Line::Cancel(number))?;
        Ok(SoFar {
            lines,
            ids,
            documents,
            queries,
            ticks,
        })
    }
}
