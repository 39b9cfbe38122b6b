//! A controller of three rates: a filter at 1 kHz, integral control at 100 Hz, and a driver that holds.

pub(crate) const WORDS: &[&str] = &["m", "--stop", "0.02", "--table", "t"];

pub(crate) const MODEL: &str =
    "within;\nconnector IntegerInput = input Integer;\nconnector IntegerOutput = output Integer;\nblock Filter \"mean of two\"\n  IntegerInput u;\n  IntegerOutput y;\nequation\n  y = div(u + previous(u), 2);\n  annotation(Icon(extent = {{-100.5, -100}, {100.5, 100}}));\nend Filter;\nblock Controller \"integral control\"\n  parameter Integer ref = 100;\n  parameter Integer limit = 40;\n  IntegerInput u;\n  IntegerOutput y;\nprotected\n  Integer e \"error\";\n  Integer sum(start = 0);\nequation\n  e = ref - u;\n  sum = max(-limit, min(limit, previous(sum) + e));\n  y = sum;\nend Controller;\nblock Driver\n  IntegerInput u;\n  IntegerOutput y;\nequation\n  y = hold(u);\nend Driver;\nmodel Loop\n  input Integer level;\n  output Integer valve;\n  Filter f;\n  Controller c(limit = 105);\n  Driver d;\nequation\n  f.u = sample(level, Clock(1, 1000)) \"1 kHz\";\n  c.u = subSample(f.y, 10) \"100 Hz\";\n  connect(c.y, d.u);\n  valve = d.y;\nend Loop;\n";

pub(crate) const TABLE: &str = "time,level\n0,60\n0.005,70\n0.0105,90\n";

/// The filter is the mean of two samples, the control sums what lacks to 100 within 105, and the valve holds the sum. The
/// sample at the instant 1/100 reads the level before the step at 21/2000.
pub(crate) const TRACE: &str =
    "time,level,valve,f.u,f.y,c.u,c.y,c.e,c.sum,d.u,d.y\n0,60,70,60,30,30,70,70,70,70,70\n1/1000,60,70,60,60,,,,,,70\n1/500,60,70,60,60,,,,,,70\n3/1000,60,70,60,60,,,,,,70\n1/250,60,70,60,60,,,,,,70\n1/200,70,70,60,60,,,,,,70\n3/500,70,70,70,65,,,,,,70\n7/1000,70,70,70,70,,,,,,70\n1/125,70,70,70,70,,,,,,70\n9/1000,70,70,70,70,,,,,,70\n1/100,70,100,70,70,70,100,30,100,100,100\n21/2000,90,100,,,,,,,,100\n11/1000,90,100,90,80,,,,,,100\n3/250,90,100,90,90,,,,,,100\n13/1000,90,100,90,90,,,,,,100\n7/500,90,100,90,90,,,,,,100\n3/200,90,100,90,90,,,,,,100\n2/125,90,100,90,90,,,,,,100\n17/1000,90,100,90,90,,,,,,100\n9/500,90,100,90,90,,,,,,100\n19/1000,90,100,90,90,,,,,,100\n1/50,90,105,90,90,90,105,10,105,105,105\n";
