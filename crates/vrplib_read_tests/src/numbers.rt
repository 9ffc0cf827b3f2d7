//! The numbers of keywords: whole ones, and those that are rounded.
use problem_data::Problem;
use std::alloc::Global;
use vrp_num::Rounding;
use vrplib_read::{ReadFault, Refusal, Rule, read_instance};

/// The problem of a text whose second line is a keyword's.
fn problem_with(
    alloc: Global,
    mode: Rounding,
    keyword: &str,
    token: &str,
) -> Result<Problem, ReadFault> {
    let text = format!(in alloc;
        "DIMENSION : 2\n{keyword} : {token}\nEDGE_WEIGHT_TYPE : EUC_2D\nNODE_COORD_SECTION\n1 0 0\n2 3 4\n"
    )?;
    read_instance(alloc, text.as_bytes(), mode)
}

/// The capacity of the one vehicle type.
fn capacity(alloc: Global, token: &str) -> Result<u64, ReadFault> {
    let problem = problem_with(alloc, Rounding::Round, "CAPACITY", token)?;
    let mut capacity = 0;
    for vehicle_type in problem.types.items() {
        capacity = vehicle_type.capacity;
    }
    Ok(capacity)
}

/// The service of the one client.
fn service(alloc: Global, mode: Rounding, token: &str) -> Result<u64, ReadFault> {
    let problem = problem_with(alloc, mode, "SERVICE_TIME", token)?;
    let mut service = 0;
    for client in problem.clients.items() {
        service = client.service;
    }
    Ok(service)
}

/// The number that is wanted, or the refusal of the second line.
fn wanted(expected: Result<u64, Rule>) -> Result<u64, ReadFault> {
    match expected {
        Ok(number) => Ok(number),
        Err(rule) => Err(ReadFault::Refused(Refusal { line: 2, rule })),
    }
}

#[test]
fn whole_tokens(rt: HostRuntime) {
    for (token, expected) in [
        ("1.5e1", Ok(15)),
        ("-0.0", Ok(0)),
        ("1.5", Err(Rule::BadNumber)),
        ("-5", Err(Rule::BadNumber)),
        ("1e-1000000", Err(Rule::BadNumber)),
        ("1000000000001", Err(Rule::Limit)),
        ("1e13", Err(Rule::Limit)),
        ("-1e13", Err(Rule::BadNumber)),
        ("10000000000000.5", Err(Rule::BadNumber)),
    ] {
        assert_eq!(rt; capacity(rt.alloc(), token), wanted(expected), "{token}");
    }
}

#[test]
fn rounded_tokens(rt: HostRuntime) {
    for (mode, token, expected) in [
        (Rounding::Round, "2.5", Ok(3)),
        (Rounding::Exact, "2.5", Ok(2500)),
        (Rounding::Round, "1e12", Ok(1_000_000_000_000)),
        (Rounding::Exact, "1e12", Err(Rule::Limit)),
        (Rounding::Round, "10000000000000.5", Err(Rule::Limit)),
        (Rounding::Round, "-1", Err(Rule::BadNumber)),
    ] {
        assert_eq!(rt;
            service(rt.alloc(), mode, token),
            wanted(expected),
            "{token}"
        );
    }
}
