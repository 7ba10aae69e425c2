//! Starting the workers of a crew, and joining them.

ghost use Rattle.std.specs.Prelude.{◌≡◌, ◌+◌, All, IfErr, IfOk, IsTrue, OnOk, vec_len};
ghost use Rattle.worker_threads.specs.CrewErrors.{IsUnstarted};

use crate::crew::{Crew, CrewError, ReportPromise, Unstarted};
use std::alloc::Global;
use std::snapshot::Snapshot;
use std::sync::Wait;
use std::thread;
use std::thread::{PromisedHandle, Scope, Threads};

/// Starts a worker for each kit, works with the kit `own` on this thread, and joins all threads.
/// Returns their reports, which are those of this crew. Without kits it starts no thread. If a
/// thread can't be started, the crew is called off, so the started threads stop.
pub fn work_together<C: Crew, R: Threads + Wait + Sync>(
    rt: &R,
    alloc: Global,
    crew: &C,
    own: C::Kit,
    kits: Vec<C::Kit>,
) -> Result<Vec<C::Report>, CrewError>
    requires own { C.fits crew.now own }
    requires fits { All (C.fits crew.now) kits.items }
    ensures all { IfOk result (λ v. vec_len v ≡ vec_len kits + 1) }
    ensures told { IfOk result (λ v. All (C.told crew.now) v.items) }
{
    thread::scope(
        thread::scope_env(),
        rt,
        move |scope| -> Result<Vec<C::Report>, CrewError>
            requires { C.fits crew.now own × All (C.fits crew.now) kits.items }
            ensures all { IfOk result (λ v. vec_len v ≡ vec_len kits + 1) }
            ensures told { IfOk result (λ v. All (C.told crew.entry.now) v.items) }
        { work_in(rt, alloc, scope, crew, own, kits) },
    )
}

/// Does the work of `work_together` in a scope of threads.
fn work_in<'s, E, C: Crew, R: Threads + Wait + Sync>(
    rt: &'s R,
    alloc: Global,
    scope: &Scope<'s, E>,
    crew: &'s C,
    own: C::Kit,
    kits: Vec<C::Kit>,
) -> Result<Vec<C::Report>, CrewError>
    requires own { C.fits crew.now own }
    requires fits { All (C.fits crew.now) kits.items }
    ensures all { IfOk result (λ v. vec_len v ≡ vec_len kits + 1) }
    ensures told { IfOk result (λ v. All (C.told crew.now) v.items) }
{
    let mut handles = Vec::new(alloc);
    let started = start_all(rt, scope, crew, kits, &mut handles);
    if started.is_err() {
        crew.call_off();
    }
    let mut reports = Vec::new(alloc);
    let kept = reports.push(crew.work(rt, own));
    let joined = join_all(rt, handles, &mut reports, crew);
    started?;
    joined?;
    match kept {
        Ok(()) => Ok(reports),
        Err(_) => Err(CrewError::OutOfMemory),
    }
}

/// Starts a worker for each kit. It stops at the first one that can't be started.
fn start_all<'s, E, C: Crew, R: Threads + Wait + Sync>(
    rt: &'s R,
    scope: &Scope<'s, E>,
    crew: &'s C,
    kits: Vec<C::Kit>,
    handles: &mut Vec<PromisedHandle<C::Report, ReportPromise<C>>>,
) -> Result<(), CrewError>
    requires none { vec_len handles.old ≡ 0 }
    requires fits { All (C.fits crew.now) kits.items }
    ensures all { OnOk result (vec_len handles.new ≡ vec_len kits) }
    ensures each { All (λ h. h.promise.0.value ≡ crew.now) handles.new.items }
{
    for kit in kits {
        add(rt, scope, crew, kit, handles)?;
    }
    Ok(())
}

/// Starts one more worker, if there is memory for its handle.
fn add<'s, E, C: Crew, R: Threads + Wait + Sync>(
    rt: &'s R,
    scope: &Scope<'s, E>,
    crew: &'s C,
    kit: C::Kit,
    handles: &mut Vec<PromisedHandle<C::Report, ReportPromise<C>>>,
) -> Result<(), CrewError>
    requires fits { C.fits crew.now kit }
    requires each { All (λ h. h.promise.0.value ≡ crew.now) handles.old.items }
    ensures more { OnOk result (vec_len handles.new ≡ vec_len handles.old + 1) }
    ensures each { All (λ h. h.promise.0.value ≡ crew.now) handles.new.items }
{
    if handles.reserve(1).is_err() {
        return Err(CrewError::OutOfMemory);
    }
    let started = handles.len();
    handles.push_reserved(start(rt, scope, crew, kit, started)?);
    Ok(())
}

/// Starts one worker, after so many others.
fn start<'s, E, C: Crew, R: Threads + Wait + Sync>(
    rt: &'s R,
    scope: &Scope<'s, E>,
    crew: &'s C,
    kit: C::Kit,
    started: usize,
) -> Result<PromisedHandle<C::Report, ReportPromise<C>>, CrewError>
    requires fits { C.fits crew.now kit }
    ensures promise { IfOk result (λ h. h.promise.0.value ≡ crew.now) }
    ensures refused { IfErr result (IsUnstarted started) }
{
    let spawned = scope.spawn_with(
        ReportPromise(Snapshot::of(crew)),
        move || -> C::Report
            requires { C.fits crew.now kit }
            ensures { C.told crew.entry.now result }
        { crew.work(rt, kit) },
    );
    match spawned {
        Ok(handle) => Ok(handle),
        Err(_) => Err(CrewError::NoThread(Unstarted { started })),
    }
}

/// Joins all workers, even if there is no memory for their reports.
fn join_all<C: Crew, R: Threads>(
    rt: &R,
    handles: Vec<PromisedHandle<C::Report, ReportPromise<C>>>,
    reports: &mut Vec<C::Report>,
    crew: &C,
) -> Result<(), CrewError>
    requires told { All (C.told crew.now) reports.old.items }
    requires each { All (λ h. h.promise.0.value ≡ crew.now) handles.items }
    ensures all { OnOk result (vec_len reports.new ≡ vec_len reports.old + vec_len handles) }
    ensures told { All (C.told crew.now) reports.new.items }
{
    let mut joined = Ok(());
    for handle in handles {
        if !keep(rt, handle, reports, crew) {
            joined = Err(CrewError::OutOfMemory);
        }
    }
    joined
}

/// Joins one worker, and keeps its report if there is memory.
fn keep<C: Crew, R: Threads>(
    rt: &R,
    handle: PromisedHandle<C::Report, ReportPromise<C>>,
    reports: &mut Vec<C::Report>,
    crew: &C,
) -> bool
    requires told { All (C.told crew.now) reports.old.items }
    requires each { handle.promise.0.value ≡ crew.now }
    ensures all { IsTrue result → vec_len reports.new ≡ vec_len reports.old + 1 }
    ensures told { All (C.told crew.now) reports.new.items }
{
    let report = handle.join(rt);
    reports.push(report).is_ok()
}
