//! Worked examples, which the definitions compute. The functions here do nothing: their contracts
//! are the examples.
ghost use Rattle.std.specs.Prelude.{◌≡◌, ◌++◌, codes};
ghost use Rattle.model_generator.specs.InputFile.{generated_input};
ghost use Rattle.model_generator.specs.Trace.{generated_trace, header_text, row_text, depth_at};

/// The input file of one pump.
pub fn one_pump()
    ensures input { generated_input 1 ≡ codes "[JUNCTIONS]\nN1 0\n[OUTFALLS]\nOUT 0 FREE\n"
        ++ (codes "[PUMPS]\nP1 N1 OUT * OFF\n[CONTROLS]\n"
        ++ (codes "RULE A1\nIF NODE N1 DEPTH > 6\nTHEN PUMP P1 STATUS = ON\n"
        ++ (codes "RULE B1\nIF NODE N1 DEPTH < 3\nTHEN PUMP P1 STATUS = OFF\n"
        ++ codes "RULE C1\nIF NODE N1 DEPTH > 8\nTHEN PUMP P1 SETTING = 2\nPRIORITY 1\n"))) }
{}

/// The first junctions and pumps of two, and the last rule.
pub fn two_pumps()
    ensures input { generated_input 2
        ≡ codes "[JUNCTIONS]\nN1 0\nN2 0\n[OUTFALLS]\nOUT 0 FREE\n"
        ++ (codes "[PUMPS]\nP1 N1 OUT * OFF\nP2 N2 OUT * OFF\n[CONTROLS]\n"
        ++ (codes "RULE A1\nIF NODE N1 DEPTH > 6\nTHEN PUMP P1 STATUS = ON\n"
        ++ (codes "RULE B1\nIF NODE N1 DEPTH < 3\nTHEN PUMP P1 STATUS = OFF\n"
        ++ (codes "RULE C1\nIF NODE N1 DEPTH > 8\nTHEN PUMP P1 SETTING = 2\nPRIORITY 1\n"
        ++ (codes "RULE A2\nIF NODE N2 DEPTH > 6\nTHEN PUMP P2 STATUS = ON\n"
        ++ (codes "RULE B2\nIF NODE N2 DEPTH < 3\nTHEN PUMP P2 STATUS = OFF\n"
        ++ codes "RULE C2\nIF NODE N2 DEPTH > 8\nTHEN PUMP P2 SETTING = 2\nPRIORITY 1\n"
        )))))) }
{}

/// Lines of traces: the headers of one and of two pumps, and rows of two.
pub fn trace_lines()
    ensures header { header_text 1 ≡ codes "moment,NODE N1 DEPTH\n" }
    ensures two_columns { header_text 2 ≡ codes "moment,NODE N1 DEPTH,NODE N2 DEPTH\n" }
    ensures first_row { row_text 2 0 ≡ codes "2000-01-01T00:00:00,7,3\n" }
    ensures second_row { row_text 2 1 ≡ codes "2000-01-01T00:05:00,10,6\n" }
    ensures last_row { row_text 2 19 ≡ codes "2000-01-01T01:35:00,9,5\n" }
{}

/// The whole trace of one pump.
pub fn one_pump_trace()
    ensures trace { generated_trace 1 ≡ codes "moment,NODE N1 DEPTH\n"
        ++ (codes "2000-01-01T00:00:00,7\n2000-01-01T00:05:00,10\n2000-01-01T00:10:00,2\n"
        ++ (codes "2000-01-01T00:15:00,5\n2000-01-01T00:20:00,8\n2000-01-01T00:25:00,0\n"
        ++ (codes "2000-01-01T00:30:00,3\n2000-01-01T00:35:00,6\n2000-01-01T00:40:00,9\n"
        ++ codes "2000-01-01T00:45:00,1\n"))) }
{}
